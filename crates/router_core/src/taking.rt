// Entries of each kind, applied to a table that has room for them.
ghost use Rattle.mapping_records.specs.Eids.{same_address};
ghost use Rattle.router_model.specs.Standing.{changing};
ghost use Rattle.std.specs.Prelude.{◌≡◌, ◌<◌, ◌≤◌, ◌+◌, ◌^◌, ◌≢◌, IsTrue, length, if◌then◌else◌};
ghost use Rattle.map_cache.specs.Cache.{has_room, lasting, learned};
ghost use Rattle.lisp_settings.specs.Instances.{requests_in};
ghost use Rattle.request_queue.specs.Queue.{may_send_again, open_in, waiting};
ghost use Rattle.router_log.specs.declared.entry.Entry.TheVariants.{Answered, Asked, Bits, Changed, DataFrom, EchoHeard, EchoStarted, EchoWanted, Learned, ProbeAnswered, Probed, Retried, Solicited};
ghost use Rattle.router_model.specs.Limits.{most_changes, most_locators, most_probes, most_version};
ghost use Rattle.router_model.specs.Parts.{view_in, with_entry};
ghost use Rattle.router_core.specs.Bounded.{KeepLimits};
ghost use Rattle.router_core.specs.Steps.{MayEnter};

use crate::Table;
use crate::turns::{no_turns, turns_behind, turns_with};
use ip_headers::{Addr, same_address};
use lisp_settings::OwnLocator;
use mapping_records::{Eid, Record};

impl Table {
    /// Applies the entry of a learned mapping, for which there is room; a static one is `fixed`.
    pub(crate) fn learn(&mut self, m: u64, mapping: Record, fixed: bool)
        requires may { MayEnter 1 m self.old.parts }
        requires locators { length mapping.locators ≤ most_locators }
        requires version { mapping.version ≤ most_version }
        requires fixed { IsTrue fixed → mapping.ttl ≢ 0 }
        requires place { IsTrue (has_room self.old.parts.limits mapping fixed
            (lasting m self.old.parts.mappings)) }
        requires keeps { KeepLimits self.old.parts.limits
            (learned m mapping fixed self.old.parts.mappings) }
        requires room { 0 < self.old.mapping_room }
        ensures parts { self.new.parts ≡ with_entry (Learned m mapping fixed) self.old.parts }
        ensures mapping_room { self.old.mapping_room ≤ self.new.mapping_room + 1 }
        ensures request_room { self.old.request_room ≤ self.new.request_room }
    {
        self.queue.purge(m);
        self.locators.purge(m);
        self.turns = turns_with(
            turns_behind(self.turns, m),
            &self.locators,
            mapping.locators.as_slice(),
        );
        // The call of `len` brings the fact that there are at most as many mappings as may live.
        let _ = self.cache.len();
        if self.cache.learn(m, mapping, fixed).is_err() {
            unreachable!();
        }
        self.count += 1;
    }

    /// Applies the entry of a request that was made, for which there is room.
    pub(crate) fn ask(&mut self, m: u64, eid: Eid, source: Option<Addr>, invoked: bool, nonce: u64)
        requires may { MayEnter 1 m self.old.parts }
        requires place { open_in eid.iid (waiting m self.old.parts.requests)
            < requests_in self.old.parts.limits eid.iid }
        requires room { 0 < self.old.request_room }
        ensures parts { self.new.parts
            ≡ with_entry (Asked m eid source invoked nonce) self.old.parts }
        ensures request_room { self.old.request_room ≤ self.new.request_room + 1 }
    {
        self.turns = turns_behind(self.turns, m);
        self.cache.purge(m);
        // The call of `len` brings the fact that there are at most as many requests as may be open.
        let _ = self.queue.len();
        if self.queue.ask(m, eid, source, invoked, nonce).is_err() {
            unreachable!();
        }
        self.locators.purge(m);
        self.count += 1;
        self.drawn += 1;
    }

    /// Applies the entry of a request that was answered.
    pub(crate) fn answer(&mut self, m: u64, nonce: u64)
        requires may { MayEnter 1 m self.old.parts }
        ensures parts { self.new.parts ≡ with_entry (Answered m nonce) self.old.parts }
        ensures mapping_room { self.old.mapping_room ≤ self.new.mapping_room }
        ensures request_room { self.old.request_room ≤ self.new.request_room }
    {
        self.turns = turns_behind(self.turns, m);
        self.cache.purge(m);
        self.queue.purge(m);
        self.locators.purge(m);
        self.queue.answer(nonce);
        self.count += 1;
    }

    /// Applies the entry of a request that was sent again.
    pub(crate) fn retry(&mut self, m: u64, nonce: u64)
        requires may { MayEnter 1 m self.old.parts }
        requires again { IsTrue (may_send_again nonce (waiting m self.old.parts.requests)) }
        ensures parts { self.new.parts ≡ with_entry (Retried m nonce) self.old.parts }
        ensures probe_room { self.old.probe_room ≤ self.new.probe_room }
    {
        self.turns = turns_behind(self.turns, m);
        self.cache.purge(m);
        self.queue.purge(m);
        self.locators.purge(m);
        self.queue.retry(nonce);
        self.count += 1;
    }

    /// Applies the entry of a probe that was sent, for which there is room.
    pub(crate) fn probe(&mut self, m: u64, rloc: Addr, nonce: u64)
        requires may { MayEnter 1 m self.old.parts }
        requires room { 0 < self.old.probe_room }
        requires place { (view_in self.old.parts m).probe_count < most_probes }
        ensures parts { self.new.parts ≡ with_entry (Probed m rloc nonce) self.old.parts }
        ensures probe_room { self.old.probe_room ≤ self.new.probe_room + 1 }
    {
        self.turns = turns_behind(self.turns, m);
        self.cache.purge(m);
        self.queue.purge(m);
        if self.locators.probed(m, rloc, nonce).is_err() {
            unreachable!();
        }
        self.count += 1;
        self.drawn += 1;
    }

    /// Applies the entry of a probe that was answered.
    pub(crate) fn answer_probe(&mut self, m: u64, nonce: u64)
        requires may { MayEnter 1 m self.old.parts }
        ensures parts { self.new.parts ≡ with_entry (ProbeAnswered m nonce) self.old.parts }
    {
        self.turns = turns_behind(self.turns, m);
        self.cache.purge(m);
        self.queue.purge(m);
        self.locators.probe_answered(m, nonce);
        self.count += 1;
    }

    /// Applies the entry of an echo that is requested, for which there is room.
    pub(crate) fn start_echo(&mut self, m: u64, rloc: Addr, nonce: u32)
        requires may { MayEnter 1 m self.old.parts }
        requires room { 0 < self.old.start_room }
        requires place { IsTrue ((view_in self.old.parts m).may_start rloc) }
        requires short { nonce < 2 ^ 24 }
        ensures parts { self.new.parts ≡ with_entry (EchoStarted m rloc nonce) self.old.parts }
    {
        self.turns = turns_behind(self.turns, m);
        self.cache.purge(m);
        self.queue.purge(m);
        if self.locators.echo_started(m, rloc, nonce).is_err() {
            unreachable!();
        }
        self.count += 1;
        self.drawn += 1;
    }

    /// Applies the entry of an echo that came from a locator.
    pub(crate) fn hear_echo(&mut self, m: u64, rloc: &Addr)
        requires may { MayEnter 1 m self.old.parts }
        ensures parts { self.new.parts ≡ with_entry (EchoHeard m rloc.now) self.old.parts }
    {
        self.turns = turns_behind(self.turns, m);
        self.cache.purge(m);
        self.queue.purge(m);
        self.locators.echo_heard(m, rloc);
        self.count += 1;
    }

    /// Applies the entry of a packet that came from a locator.
    pub(crate) fn take_data(&mut self, m: u64, rloc: &Addr)
        requires may { MayEnter 1 m self.old.parts }
        ensures parts { self.new.parts ≡ with_entry (DataFrom m rloc.now) self.old.parts }
    {
        self.turns = turns_behind(self.turns, m);
        self.cache.purge(m);
        self.queue.purge(m);
        self.locators.data_from(m, rloc);
        self.count += 1;
    }

    /// Applies the entry of an echo that a locator wants, for which there is room.
    pub(crate) fn want_echo(&mut self, m: u64, rloc: Addr, nonce: u32)
        requires may { MayEnter 1 m self.old.parts }
        requires room { 0 < self.old.wish_room }
        requires place { IsTrue ((view_in self.old.parts m).may_want rloc nonce) }
        requires short { nonce < 2 ^ 24 }
        ensures parts { self.new.parts ≡ with_entry (EchoWanted m rloc nonce) self.old.parts }
    {
        self.turns = turns_behind(self.turns, m);
        self.cache.purge(m);
        self.queue.purge(m);
        if self.locators.echo_wanted(m, rloc, nonce).is_err() {
            unreachable!();
        }
        self.count += 1;
    }

    /// Applies the entry of an SMR that was sent to a locator, for which there is room.
    pub(crate) fn solicit(&mut self, m: u64, rloc: Addr, eid: Eid, nonce: u64)
        requires may { MayEnter 1 m self.old.parts }
        requires room { 0 < self.old.solicit_room }
        requires place { IsTrue ((view_in self.old.parts m).may_solicit rloc eid) }
        ensures parts { self.new.parts ≡ with_entry (Solicited m rloc eid nonce) self.old.parts }
        ensures probe_room { self.old.probe_room ≤ self.new.probe_room }
        ensures solicit_room { self.old.solicit_room ≤ self.new.solicit_room + 1 }
    {
        self.turns = turns_behind(self.turns, m);
        self.cache.purge(m);
        self.queue.purge(m);
        if self.locators.solicited(m, rloc, eid).is_err() {
            unreachable!();
        }
        self.count += 1;
        self.drawn += 1;
    }

    /// Applies the entry of status bits of the locators of an EID's mapping.
    pub(crate) fn tell(&mut self, m: u64, eid: &Eid, bits: u32, width: u8)
        requires may { MayEnter 1 m self.old.parts }
        requires width { width ≤ 32 }
        ensures parts { self.new.parts ≡ with_entry (Bits m eid.now bits width) self.old.parts }
    {
        self.turns = turns_behind(self.turns, m);
        self.cache.purge(m);
        self.queue.purge(m);
        self.locators.purge(m);
        self.cache.set_bits(eid, bits, width);
        self.count += 1;
    }

    /// Applies the entry of an own locator that goes up or down.
    pub(crate) fn change(&mut self, m: u64, address: Addr, up: bool)
        requires may { MayEnter 1 m self.old.parts }
        requires few { self.old.parts.steps < most_changes }
        ensures parts { self.new.parts ≡ with_entry (Changed m address up) self.old.parts }
        ensures request_room { self.old.request_room ≤ self.new.request_room }
        ensures probe_room { self.old.probe_room ≤ self.new.probe_room }
        ensures solicit_room { self.old.solicit_room ≤ self.new.solicit_room }
    {
        self.turns = no_turns();
        self.cache.purge(m);
        self.queue.purge(m);
        self.locators.purge(m);
        set_up(self.own.as_mut_slice(), address, up);
        self.steps += 1;
        self.count += 1;
    }
}

// Marks each own locator with that address as up or down.
fn set_up(locators: &mut [OwnLocator], address: Addr, up: bool)
    ensures { locators.new ≡ changing address up locators.old }
{
    for own in locators.iter_mut() {
        set_one(own, address, up);
    }
}

fn set_one(own: &mut OwnLocator, address: Addr, up: bool)
    ensures { own.new ≡ record own.old {
      up = if same_address own.old.addr address then up
          else own.old.up;
    } }
{
    if same_address(&own.addr, &address) {
        own.up = up;
    }
}
