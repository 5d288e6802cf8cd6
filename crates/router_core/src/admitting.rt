// The test of whether an entry may be applied as it is.
ghost use Rattle.router_model.specs.Standing.{may_change};
ghost use Rattle.std.specs.Prelude.{◌≡◌, ◌<◌, ◌==◌, ◌||◌, ◌&&◌, ◌^◌, nat_le, nat_lt, is_some, length};
ghost use Rattle.std.specs.Option.{option_copied};
ghost use Rattle.request_queue.specs.Queue.{with_nonce};
ghost use Rattle.router_model.specs.Journal.{moment_of};
ghost use Rattle.router_model.specs.Limits.{most_probes};
ghost use Rattle.router_model.specs.Mappings.{exact};
ghost use Rattle.router_model.specs.Parts.{admits, view_in};
ghost use Rattle.router_model.specs.Proper.{is_in_range, is_short, may_retry, suits};

use crate::Table;
use crate::limits::{MOST_RETRIES, MOST_VERSION};
use ip_headers::Addr;
use lisp_settings::{MOST_CHANGES, is_own};
use map_cache::MOST_LOCATORS;
use mapping_records::{Eid, Record};
use request_queue::Request;
use router_log::Entry;

impl Table {
    /// Whether an entry may follow the journal that the table stands for, whatever its nonce and
    /// whichever change is next; `apply` requires it. Takes no memory.
    #[tactic(auto, unfolding(router_model::specs::Parts::admits))]
    pub fn admits(&self, entry: &Entry) -> bool
        ensures { result ≡ admits self.now.parts entry.now }
    {
        (self.may_follow(moment_of(entry)) && self.suits(entry)) && self.may_change(entry)
    }

    // Whether an entry of that moment may follow: the journal has fewer than 2^62 entries, and the
    // last one isn't later.
    fn may_follow(&self, m: u64) -> bool
        ensures { result ≡ (nat_lt self.now.parts.count (2 ^ 62)
            && nat_le self.now.parts.now m) }
    {
        self.count < 1 << 62 && self.cache.now() <= m
    }

    // Whether the entry of a change has the address of an own locator, and fewer changes were made
    // than may be. Each other entry passes.
    fn may_change(&self, entry: &Entry) -> bool
        ensures { result ≡ may_change self.now.parts.own self.now.parts.steps entry.now }
    {
        match entry {
            Entry::Changed { address, .. } => {
                is_own(self.own.as_slice(), *address) && (self.steps as usize) < MOST_CHANGES
            }
            _ => true,
        }
    }

    // Whether an entry suits the view of the table at its moment, by the limits of instances.
    fn suits(&self, entry: &Entry) -> bool
        ensures { result ≡ suits self.now.parts.limits
            (view_in self.now.parts (moment_of entry.now)) entry.now }
    {
        match entry {
            Entry::Learned {
                moment,
                mapping,
                fixed,
            } => !*fixed && (is_in_range(mapping) && self.has_room(*moment, mapping)),
            Entry::Asked { moment, eid, .. } => self.may_open(*moment, eid.iid),
            Entry::Retried { moment, nonce } => self.may_retry(*moment, *nonce),
            Entry::Answered { moment, nonce } => self.open_request(*moment, *nonce).is_some(),
            Entry::Bits {
                moment,
                eid,
                width,
                ..
            } => self.is_told(*moment, eid, *width),
            Entry::Probed { moment, .. } => self.few_probes(*moment),
            Entry::ProbeAnswered { moment, nonce } => self.is_probe_open(*moment, *nonce),
            Entry::EchoStarted {
                moment,
                rloc,
                nonce,
            } => self.may_start(*moment, rloc) && is_short(*nonce),
            Entry::EchoHeard { moment, rloc } => self.is_echo_on(*moment, rloc),
            Entry::DataFrom { moment, rloc } => self.is_data_due(*moment, rloc),
            Entry::EchoWanted {
                moment,
                rloc,
                nonce,
            } => self.may_want(*moment, rloc, *nonce) && is_short(*nonce),
            Entry::Solicited {
                moment,
                rloc,
                eid,
                ..
            } => self.may_be_solicited(*moment, rloc, eid),
            Entry::Changed { .. } => true,
        }
    }

    // Whether there is an open request with that nonce, and it may be sent again once more.
    fn may_retry(&self, m: u64, nonce: u64) -> bool
        ensures { result ≡ may_retry (with_nonce (view_in self.now.parts m).requests nonce) }
    {
        match self.open_request(m, nonce) {
            None => false,
            Some(request) => request.sent_again < MOST_RETRIES,
        }
    }

    // Whether status bits of that width may be applied to the mapping of an EID: the width is 8 or
    // 32, and a mapping of exactly that EID is live.
    fn is_told(&self, m: u64, eid: &Eid, width: u8) -> bool
        ensures { result ≡ (is_some (exact (view_in self.now.parts m).mappings eid.now)
            && ((width == 8) || (width == 32))) }
    {
        self.exact(m, eid).is_some() && (width == 8 || width == 32)
    }

    // ### Questions that only entries ask

    // The open request with that nonce at a moment, or None.
    #[tactic(auto, unfolding(router_model::specs::Parts::view_in))]
    fn open_request(&self, m: u64, nonce: u64) -> Option<&Request>
        ensures { option_copied result ≡ with_nonce (view_in self.now.parts m).requests nonce }
    {
        self.queue.find(self.moment_at(m), nonce)
    }

    // Whether there is room for one more probe at a moment.
    #[tactic(auto, unfolding(router_model::specs::Parts::view_in))]
    fn few_probes(&self, m: u64) -> bool
        ensures { result ≡ nat_lt (view_in self.now.parts m).probe_count most_probes }
    {
        self.locators.may_probe(self.moment_at(m))
    }

    // Whether a probe with that nonce is open at a moment.
    #[tactic(auto, unfolding(router_model::specs::Parts::view_in))]
    fn is_probe_open(&self, m: u64, nonce: u64) -> bool
        ensures { result ≡ is_some ((view_in self.now.parts m).probe_open nonce) }
    {
        self.locators.probe_open(self.moment_at(m), nonce).is_some()
    }

    // Whether an echo is requested of a locator at a moment.
    #[tactic(auto, unfolding(router_model::specs::Parts::view_in))]
    fn is_echo_on(&self, m: u64, rloc: &Addr) -> bool
        ensures { result ≡ is_some ((view_in self.now.parts m).echo_on rloc.now) }
    {
        self.locators.echo_on(self.moment_at(m), rloc).is_some()
    }

    /// Whether earlier SMRs allow one more to a locator for an EID at a moment.
    #[tactic(auto, unfolding(router_model::specs::Parts::view_in))]
    pub(crate) fn may_be_solicited(&self, m: u64, rloc: &Addr, eid: &Eid) -> bool
        ensures { result ≡ (view_in self.now.parts m).may_solicit rloc.now eid.now }
    {
        self.locators.may_solicit(self.moment_at(m), rloc, eid)
    }
}

// The moment of an entry.
fn moment_of(entry: &Entry) -> u64
    ensures { result ≡ moment_of entry.now }
{
    match entry {
        Entry::Learned { moment, .. }
        | Entry::Asked { moment, .. }
        | Entry::Retried { moment, .. }
        | Entry::Answered { moment, .. }
        | Entry::Probed { moment, .. }
        | Entry::ProbeAnswered { moment, .. }
        | Entry::Bits { moment, .. }
        | Entry::EchoStarted { moment, .. }
        | Entry::EchoHeard { moment, .. }
        | Entry::DataFrom { moment, .. }
        | Entry::EchoWanted { moment, .. }
        | Entry::Solicited { moment, .. }
        | Entry::Changed { moment, .. } => *moment,
    }
}

// Whether a record's action and version fit their bits, and it has no more locators than a mapping
// may.
fn is_in_range(mapping: &Record) -> bool
    ensures { result ≡ is_in_range mapping.now }
{
    mapping.action <= 7
        && (mapping.version <= MOST_VERSION && mapping.locators.len() <= MOST_LOCATORS)
}

// Whether a nonce has the 24 bits of an echo.
fn is_short(nonce: u32) -> bool
    ensures { result ≡ is_short nonce }
{
    nonce < 1 << 24
}
