// The limits of attached instances: how many mappings each may learn, and how many requests it may
// have open.
ghost use Rattle.std.specs.Prelude.{◌≡◌, ◌≤◌, ◌<◌, ◌+◌, ◌-◌, ◌/◌, ◌^◌, ℕ, count_by, is_none, unwrap_or, min, IfOk, IfSome, IsTrue, length, map, option_and_then, slice_get};
ghost use Rattle.std.specs.List.Sorted.{IsStrictlySortedBy};
ghost use Rattle.std.specs.Ordering.{nat_cmp};
ghost use Rattle.lisp_settings.specs.Instances.{AreLimits, all_mappings, all_requests, instances, limit, limits_in, mappings_in, requests_in, stated};
ghost use Rattle.lisp_settings.specs.Lawful.{IsLawful};
ghost use Rattle.lisp_settings.specs.Limits.{most_mappings, most_open, most_requests};

use crate::limiting::sums;
use crate::limits::{MOST_OPEN, MOST_REQUESTS};
use crate::settings::{Attachment, LimitItem, LimitItems, Settings};
use mapping_records::MOST_MAPPINGS;
use octets::{Items, NoMemory};
use std::alloc::Global;
use std::collections::BTreeMap;
use std::marker::Model;

/// The limits of the attached instances, in ascending order of instance.
#[derive(Debug, Drop)]
pub struct Limits {
    items: LimitItems,
}

impl Model for Limits {
    ghost use Rattle.std.specs.Prelude.{List};
    ghost use Rattle.lisp_settings.specs.Instances.{AreLimits};
    ghost use Rattle.lisp_settings.specs.declared.settings.LimitItem.{LimitItem};

    ghost Value = { List LimitItem };

    ghost view = { λ limits. limits.items };

    ghost invariant = { λ limits. AreLimits limits.items };
}

impl Limits {
    /// The limits, one for each attached instance.
    pub fn as_slice(&self) -> &[LimitItem]
        ensures items { result.now ≡ self.now }
        ensures limits { AreLimits self.now }
    {
        self.items.as_slice()
    }

    /// The place of an instance's limit, found by halving. None for an instance without a limit,
    /// which counts as 0 mappings and 0 requests.
    pub fn place(&self, iid: u32) -> Option<usize>
        ensures found { option_and_then (slice_get self.now) result ≡ stated self.now iid }
        ensures within { IfSome result (λ place. place < length self.now) }
    {
        place_in(self.items.as_slice(), iid)
    }

    /// A copy of the limits, which shares no memory with them.
    pub fn copy(&self, alloc: Global) -> Result<Limits, NoMemory>
        ensures { IfOk result (λ copy. copy ≡ self.now) }
    {
        let items = Vec::from_slice(alloc, self.items.as_slice())?;
        Ok(Limits {
            items: Items::from_vec(items),
        })
    }
}

/// The limits of the attached instances: for each the stated one, or an equal part of what stated
/// limits and static mappings leave.
pub fn limits_of(alloc: Global, settings: &Settings) -> Result<Limits, NoMemory>
    requires { IsLawful settings.now }
    ensures limits { IfOk result (λ limits. limits ≡ limits_in settings.now) }
    ensures mappings { IfOk result (λ limits. (iid : ℕ)
        → mappings_in limits iid ≡ (limit settings.now iid).mappings) }
    ensures requests { IfOk result (λ limits. (iid : ℕ)
        → requests_in limits iid ≡ (limit settings.now iid).requests) }
    ensures room { IfOk result (λ limits.
        length settings.now.mappings + all_mappings limits ≤ most_mappings) }
{
    let iids = instances(alloc, settings.attachments.as_slice())?;
    let items = limited(alloc, settings, iids.as_slice())?;
    Ok(Limits {
        items: Items::from_vec(items),
    })
}

// The instances to which VLANs are attached, each once, in ascending order.
fn instances(alloc: Global, attachments: &[Attachment]) -> Result<Vec<u32>, NoMemory>
    ensures { IfOk result (λ iids. iids.items ≡ instances attachments.now) }
{
    let mut sorted = BTreeMap::new(alloc);
    for attachment in attachments {
        sorted.insert(attachment.iid, attachment.iid)?;
    }
    let iids = sorted.into_values().collect(alloc)?;
    Ok(iids)
}

// The limits of the attached instances `iids`, in their order.
fn limited(alloc: Global, settings: &Settings, iids: &[u32]) -> Result<Vec<LimitItem>, NoMemory>
    requires lawful { IsLawful settings.now }
    requires attached { iids.now ≡ instances settings.now.attachments }
    ensures { IfOk result (λ items. items.items ≡ limits_in settings.now) }
{
    let stated = settings.limits.as_slice();
    let left = what_is_left(settings.mappings.len(), stated);
    let count = unstated(stated, iids);
    let mut items = Vec::new(alloc);
    for iid in iids {
        items.push(limit_of(stated, left, count, *iid))?;
    }
    Ok(items)
}

// The number of these instances without a stated limit.
fn unstated(limits: &[LimitItem], iids: &[u32]) -> u32
    requires sorted { IsStrictlySortedBy nat_cmp (map (λ limit. limit.iid) limits.now) }
    requires few { length iids.now < 2 ^ 32 }
    ensures { result ≡ count_by (λ iid. is_none (stated limits.now iid)) iids.now }
{
    let mut count = 0;
    for iid in iids {
        if stated_of(limits, *iid).is_none() {
            count += 1;
        }
    }
    count
}

// The stated limit of an instance, or None.
fn stated_of(limits: &[LimitItem], iid: u32) -> Option<LimitItem>
    requires { IsStrictlySortedBy nat_cmp (map (λ limit. limit.iid) limits.now) }
    ensures { result ≡ stated limits.now iid }
{
    match place_in(limits, iid) {
        Some(place) => Some(limits[place]),
        None => None,
    }
}

// The place of an instance's limit in a list that is in ascending order of instance, or None.
fn place_in(limits: &[LimitItem], iid: u32) -> Option<usize>
    requires { IsStrictlySortedBy nat_cmp (map (λ limit. limit.iid) limits.now) }
    ensures found { option_and_then (slice_get limits.now) result ≡ stated limits.now iid }
    ensures within { IfSome result (λ place. place < length limits.now) }
{
    match limits.binary_search_by_key(&iid, |limit| limit.iid) {
        Ok(place) => Some(place),
        Err(_) => None,
    }
}

/// The mappings that static mappings and stated limits leave, and the requests that stated limits
/// leave.
#[derive(Clone, Copy)]
struct Left {
    mappings: u32,
    requests: u32,
}

fn what_is_left(statics: usize, limits: &[LimitItem]) -> Left
    ensures mappings { result.mappings ≡ most_mappings - (statics + all_mappings limits.now) }
    ensures requests { result.requests ≡ most_open - all_requests limits.now }
{
    let sums = sums(limits);
    Left {
        mappings: (MOST_MAPPINGS.saturating_sub(statics) as u32).saturating_sub(sums.mappings),
        requests: MOST_OPEN.saturating_sub(sums.requests),
    }
}

// The limit of an instance: the stated one, or one of `count` equal parts of what is left.
fn limit_of(limits: &[LimitItem], left: Left, count: u32, iid: u32) -> LimitItem
    requires sorted { IsStrictlySortedBy nat_cmp (map (λ limit. limit.iid) limits.now) }
    requires shared { IsTrue (is_none (stated limits.now iid)) → 0 < count }
    ensures { result ≡ unwrap_or (stated limits.now iid) (record {
      iid = iid;
      mappings = left.mappings / count;
      requests = min most_requests (left.requests / count);
    }) }
{
    match stated_of(limits, iid) {
        Some(limit) => limit,
        None => LimitItem {
            iid,
            mappings: left.mappings / count,
            requests: MOST_REQUESTS.min(left.requests / count),
        },
    }
}
