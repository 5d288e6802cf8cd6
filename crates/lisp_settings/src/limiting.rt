// The `[[limit]]` tables: how many mappings an instance may learn, and how many requests it may
// have open.
ghost use Rattle.std.specs.Prelude.{◌≡◌, ◌≢◌, ◌<◌, ◌^◌, IfOk, IfErr, OnOk, Ok, Err, codes, length, min};
ghost use Rattle.std.proofs.Common.{rules};
ghost use Rattle.std.specs.Ordering.{nat_cmp};
ghost use Rattle.toml.specs.View.{table_view, view};
ghost use Rattle.lisp_settings.specs.Fields.{required};
ghost use Rattle.lisp_settings.specs.Instances.{IsLimitOf, all_mappings, all_requests, attached_instance, is_attached, is_within, only_attached, only_within};
ghost use Rattle.lisp_settings.specs.Settings.{limit_in};
ghost use Rattle.lisp_settings.specs.declared.fault.SettingsFault.TheVariants as fault;

use crate::fault::{Key, SettingsFault};
use crate::fields::{needed, number_at, only_keys, taken};
use crate::items::GREATEST_INSTANCE;
use crate::limits::{MOST_OPEN, MOST_REQUESTS};
use crate::lists::Item;
use crate::members::put_number;
use crate::settings::{Attachment, Attachments, LimitItem};
use crate::values;
use mapping_records::{MOST_MAPPINGS, Record};
use octets::NoMemory;
use std::alloc::Global;
use toml::{Table, Value};

/// A limit as a table of `limit`: a VLAN must be attached to its instance.
impl Item for LimitItem {
    type Key = u32;

    type Known = Attachments;

    ghost reads = { limit_in };

    ghost key = { λ limit. limit.iid };

    ghost order = { nat_cmp };

    ghost lawful = { λ limit. limit.iid < 2 ^ 24 };

    ghost fits = { IsLimitOf };

    ghost nested = { 0 };

    fn read(
        alloc: Global,
        attachments: &Attachments,
        table: &Table,
    ) -> Result<Self, SettingsFault> {
        only_keys(alloc, table, &["iid", "mappings", "requests"])?;
        let iid = attached_at(alloc, attachments.as_slice(), table)?;
        let mappings = number_at(alloc, table, "mappings", MOST_MAPPINGS as u32)?;
        let requests = number_at(alloc, table, "requests", MOST_REQUESTS)?;
        Ok(LimitItem {
            iid,
            mappings,
            requests,
        })
    }

    fn write(&self, alloc: Global) -> Result<Table, NoMemory> {
        let mut table = Table::new(alloc);
        put_number(alloc, &mut table, "iid", self.iid)?;
        put_number(alloc, &mut table, "mappings", self.mappings)?;
        put_number(alloc, &mut table, "requests", self.requests)?;
        Ok(table)
    }

    fn key(&self) -> u32 {
        self.iid
    }

    ghost orders = { λ a b. Prim.search rules };
}

/// The instance at the required key `iid`, to which a VLAN must be attached.
fn attached_at(
    alloc: Global,
    attachments: &[Attachment],
    table: &Table,
) -> Result<u32, SettingsFault>
    ensures ok { IfOk result (λ iid.
        required (codes "iid") (attached_instance attachments.now) (table_view table.now)
        ≡ Ok iid) }
    ensures err { IfErr result (λ e. e ≢ fault.Memory
        → required (codes "iid") (attached_instance attachments.now) (table_view table.now)
        ≡ Err e) }
{
    let value = needed(alloc, table, "iid")?;
    taken(alloc, "iid", attached_instance(attachments, value))
}

/// The number in a value, if it is an instance to which a VLAN is attached.
fn attached_instance(attachments: &[Attachment], value: &Value) -> Option<u32>
    ensures { result ≡ attached_instance attachments.now (view value.now) }
{
    let iid = values::number(value, 0, GREATEST_INSTANCE)?;
    only_attached(attachments, iid)
}

fn only_attached(attachments: &[Attachment], iid: u32) -> Option<u32>
    ensures { result ≡ only_attached attachments.now iid }
{
    if is_attached(attachments, iid) {
        Some(iid)
    } else {
        None
    }
}

/// Whether a VLAN is attached to an instance.
fn is_attached(attachments: &[Attachment], iid: u32) -> bool
    ensures { result ≡ is_attached attachments.now iid }
{
    attachments.iter().any(|attachment| attachment.iid == iid)
}

/// Refuses limits that come, with the static mappings, to more mappings than a router may have, or
/// to more open requests.
pub fn only_within(
    alloc: Global,
    mappings: &[Record],
    limits: &[LimitItem],
) -> Result<(), SettingsFault>
    ensures ok { OnOk result (only_within mappings.now limits.now ≡ Ok limits.now) }
    ensures err { IfErr result (λ e. e ≢ fault.Memory
        → only_within mappings.now limits.now ≡ Err e) }
{
    if !is_within(mappings, limits) {
        return Err(SettingsFault::TooMany(Key::copied(alloc, "limit")?));
    }
    Ok(())
}

fn is_within(mappings: &[Record], limits: &[LimitItem]) -> bool
    ensures { result ≡ is_within (length mappings.now) limits.now }
{
    let sums = sums(limits);
    mappings.len() as u64 + u64::from(sums.mappings) <= MOST_MAPPINGS as u64
        && sums.requests <= MOST_OPEN
}

/// The sums of limits; a sum past 32 bits stands at the greatest number of 32 bits.
#[derive(Clone, Copy)]
pub struct Total {
    pub mappings: u32,
    pub requests: u32,
}

/// The sums of limits, in mappings and in requests.
pub fn sums(limits: &[LimitItem]) -> Total
    ensures mappings { result.mappings ≡ min (all_mappings limits.now) 4294967295 }
    ensures requests { result.requests ≡ min (all_requests limits.now) 4294967295 }
{
    let mut mappings = 0u32;
    let mut requests = 0u32;
    for limit in limits {
        mappings = mappings.saturating_add(limit.mappings);
        requests = requests.saturating_add(limit.requests);
    }
    Total { mappings, requests }
}
