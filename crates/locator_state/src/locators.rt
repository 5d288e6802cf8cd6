// The probes, echoes and solicitations that are kept of locators.
ghost use Rattle.std.specs.Prelude.{◌≡◌, ◌≤◌, ◌<◌, ◌+◌, ◌*◌, ◌/◌, length, max, [], IfOk, OnOk, OnErr};
ghost use Rattle.keyed_list.specs.Limits.{ring_names};
ghost use Rattle.locator_state.specs.Echoes.{data_from, echo_heard, echo_started, wanted};
ghost use Rattle.locator_state.specs.Limits.{most_reserved};
ghost use Rattle.locator_state.specs.Observed.{AddsNoRoom, HasAtMost, HasNoRoom, HasPlaces, HasRoom, UsesRoom, longest, recent, with_probes, with_solicits, with_starts, with_wishes};
ghost use Rattle.locator_state.specs.Probes.{probe_answered, probed};
ghost use Rattle.locator_state.specs.Solicits.{solicited};

use crate::echoing::{come_all, drop_starts, drop_wishes, echo_wanted, hear_all};
use crate::probing::{drop_probes, push_probe, settle_nonce};
use crate::soliciting::drop_solicits;
use crate::{Addr, EchoStart, EchoWish, Eid, NoMemory, Probe, ProbeState, Solicitation};
use keyed_list::{Keyed, KeyedList};
use std::alloc::Global;
use std::marker::Model;

/// What is kept of locators: probes, echoes that were requested of them (starts), echoes that they
/// want (wishes), and solicitations; of each kind the oldest first. An item is kept until an entry
/// or a purge at a moment at which it counts no longer: a probe counts for `PROBE_LIFE`, a start
/// for `START_LIFE`, a wish for `WISH_LIFE`, a solicitation for `SOLICIT_LIFE`. A question at a
/// moment considers only items that count then. Moments are in nanoseconds.
#[derive(Drop)]
pub struct LocatorState {
    pub(crate) probes: KeyedList<Probe>,
    pub(crate) starts: KeyedList<EchoStart>,
    pub(crate) wishes: KeyedList<EchoWish>,
    pub(crate) solicits: KeyedList<Solicitation>,
}

impl Model for LocatorState {
    ghost use Rattle.std.specs.Prelude.{◌+◌, max};
    ghost use Rattle.locator_state.specs.Observed.{Located};

    ghost Value = { Located };

    ghost view = { λ state. record {
      observed = record {
        probes = state.probes.items;
        starts = state.starts.items;
        wishes = state.wishes.items;
        solicits = state.solicits.items;
      };
      probe_room = state.probes.room;
      start_room = state.starts.room;
      wish_room = state.wishes.room;
      solicit_room = state.solicits.room;
      places = max (max state.probes.places state.starts.places)
          (max state.wishes.places state.solicits.places);
      kept = (state.probes.kept + state.starts.kept)
          + (state.wishes.kept + state.solicits.kept);
    } };
}

impl LocatorState {
    /// A state without probes, echoes and solicitations. Takes no memory.
    pub fn new(alloc: Global) -> LocatorState
        ensures observed { result.observed
            ≡ record { probes = []; starts = []; wishes = []; solicits = [] } }
        ensures room { HasNoRoom result }
        ensures places { result.places ≡ 0 }
    {
        LocatorState {
            probes: KeyedList::new(alloc),
            starts: KeyedList::new(alloc),
            wishes: KeyedList::new(alloc),
            solicits: KeyedList::new(alloc),
        }
    }

    /// An equal state of its own, with as much room.
    pub fn copy(&self) -> Result<LocatorState, NoMemory>
        ensures { IfOk result (λ copy. copy ≡ self.now) }
    {
        let (probes, starts) = copies(&self.probes, &self.starts)?;
        let (wishes, solicits) = copies(&self.wishes, &self.solicits)?;
        Ok(LocatorState {
            probes,
            starts,
            wishes,
            solicits,
        })
    }

    /// How many items are kept in all four lists. All lists behind them have at most 16 items for
    /// each place of the kind with the most places, and one for each ring of names.
    pub fn len(&self) -> usize
        ensures len { result ≡ (length self.now.observed.probes + length self.now.observed.starts)
            + (length self.now.observed.wishes + length self.now.observed.solicits) }
        ensures tied { HasPlaces self.now }
        ensures kept { self.now.kept ≤ 16 * self.now.places + 8 * self.now.places / ring_names }
    {
        self.probes.len() + self.starts.len() + (self.wishes.len() + self.solicits.len())
    }

    /// Makes room for so many further probes, and for so many further items of each other kind.
    pub fn reserve(&mut self, probes: u32, others: u32) -> Result<(), NoMemory>
        requires probes { probes ≤ most_reserved }
        requires others { others ≤ most_reserved }
        ensures observed { self.new.observed ≡ self.old.observed }
        ensures ok { OnOk result (HasRoom probes others self.new) }
        ensures memory { OnErr result (HasRoom probes others self.old → ⊥) }
        ensures room { UsesRoom 0 0 0 0 self.old self.new }
        ensures at_most { HasAtMost probes others self.old self.new }
        ensures places { self.new.places
            ≤ max self.old.places (2 * (longest self.old.observed + max probes others)) }
    {
        self.probes.reserve(probes)?;
        self.starts.reserve(others)?;
        self.wishes.reserve(others)?;
        self.solicits.reserve(others)
    }

    /// Takes away items that count no longer at a moment.
    pub fn purge(&mut self, m: u64)
        ensures observed { self.new.observed ≡ recent m self.old.observed }
        ensures room { UsesRoom 0 0 0 0 self.old self.new }
        ensures total { AddsNoRoom 0 0 0 0 self.old self.new }
        ensures places { self.new.places ≤ self.old.places }
    {
        drop_probes(m, &mut self.probes);
        drop_starts(m, &mut self.starts);
        drop_wishes(m, &mut self.wishes);
        drop_solicits(m, &mut self.solicits);
    }

    /// Notes that a probe was sent to a locator: it is open, and open probes with its nonce are
    /// lost. Where memory is refused, nothing changes.
    pub fn probed(&mut self, m: u64, rloc: Addr, nonce: u64) -> Result<(), NoMemory>
        ensures ok { OnOk result (self.new.observed
            ≡ with_probes m (probed m rloc nonce self.old.observed.probes) self.old.observed) }
        ensures err { OnErr result (self.new.observed ≡ self.old.observed) }
        ensures memory { OnErr result (self.old.probe_room ≡ 0) }
        ensures room { UsesRoom 1 0 0 0 self.old self.new }
        ensures total { AddsNoRoom 1 0 0 0 self.old self.new }
        ensures places { self.new.places
            ≤ max self.old.places (2 * (longest self.old.observed + 1)) }
    {
        self.probes.reserve(1)?;
        self.purge(m);
        push_probe(m, rloc, nonce, &mut self.probes);
        Ok(())
    }

    /// Notes an answer: the open probes with its nonce are answered.
    pub fn probe_answered(&mut self, m: u64, nonce: u64)
        ensures observed { self.new.observed
            ≡ with_probes m (probe_answered m nonce self.old.observed.probes) self.old.observed }
        ensures room { UsesRoom 0 0 0 0 self.old self.new }
        ensures total { AddsNoRoom 0 0 0 0 self.old self.new }
        ensures places { self.new.places ≤ self.old.places }
    {
        self.purge(m);
        settle_nonce(ProbeState::Answered, nonce, &mut self.probes);
    }

    /// Notes that an echo is requested of a locator from now on. Where memory is refused, nothing
    /// changes.
    pub fn echo_started(&mut self, m: u64, rloc: Addr, nonce: u32) -> Result<(), NoMemory>
        ensures ok { OnOk result (self.new.observed
            ≡ with_starts m (echo_started m rloc nonce self.old.observed.starts) self.old.observed) }
        ensures err { OnErr result (self.new.observed ≡ self.old.observed) }
        ensures memory { OnErr result (self.old.start_room ≡ 0) }
        ensures room { UsesRoom 0 1 0 0 self.old self.new }
        ensures total { AddsNoRoom 0 1 0 0 self.old self.new }
        ensures places { self.new.places
            ≤ max self.old.places (2 * (longest self.old.observed + 1)) }
    {
        self.starts.reserve(1)?;
        self.purge(m);
        self.starts.push(EchoStart {
            moment: m,
            rloc,
            nonce,
            heard: false,
            came: false,
        });
        Ok(())
    }

    /// Notes that the echo of a locator came.
    pub fn echo_heard(&mut self, m: u64, rloc: &Addr)
        ensures observed { self.new.observed
            ≡ with_starts m (echo_heard m rloc.now self.old.observed.starts) self.old.observed }
        ensures room { UsesRoom 0 0 0 0 self.old self.new }
        ensures total { AddsNoRoom 0 0 0 0 self.old self.new }
        ensures places { self.new.places ≤ self.old.places }
    {
        self.purge(m);
        hear_all(rloc, &mut self.starts);
    }

    /// Notes that a packet came from a locator, with an echo or without a nonce.
    pub fn data_from(&mut self, m: u64, rloc: &Addr)
        ensures observed { self.new.observed
            ≡ with_starts m (data_from m rloc.now self.old.observed.starts) self.old.observed }
        ensures room { UsesRoom 0 0 0 0 self.old self.new }
        ensures total { AddsNoRoom 0 0 0 0 self.old self.new }
        ensures places { self.new.places ≤ self.old.places }
    {
        self.purge(m);
        come_all(rloc, &mut self.starts);
    }

    /// Notes that a locator requested an echo. Where memory is refused, nothing changes.
    pub fn echo_wanted(&mut self, m: u64, rloc: Addr, nonce: u32) -> Result<(), NoMemory>
        ensures ok { OnOk result (self.new.observed
            ≡ with_wishes m (wanted m rloc nonce self.old.observed.wishes) self.old.observed) }
        ensures err { OnErr result (self.new.observed ≡ self.old.observed) }
        ensures memory { OnErr result (self.old.wish_room ≡ 0) }
        ensures room { UsesRoom 0 0 1 0 self.old self.new }
        ensures total { AddsNoRoom 0 0 1 0 self.old self.new }
        ensures places { self.new.places
            ≤ max self.old.places (2 * (longest self.old.observed + 1)) }
    {
        self.wishes.reserve(1)?;
        self.purge(m);
        self.wishes.push(EchoWish {
            moment: m,
            rloc,
            nonce,
        });
        Ok(())
    }

    /// Notes that a locator was solicited for an EID of the site. Where memory is refused, nothing
    /// changes.
    pub fn solicited(&mut self, m: u64, rloc: Addr, eid: Eid) -> Result<(), NoMemory>
        ensures ok { OnOk result (self.new.observed
            ≡ with_solicits m (solicited m rloc eid self.old.observed.solicits) self.old.observed) }
        ensures err { OnErr result (self.new.observed ≡ self.old.observed) }
        ensures memory { OnErr result (self.old.solicit_room ≡ 0) }
        ensures room { UsesRoom 0 0 0 1 self.old self.new }
        ensures total { AddsNoRoom 0 0 0 1 self.old self.new }
        ensures places { self.new.places
            ≤ max self.old.places (2 * (longest self.old.observed + 1)) }
    {
        self.solicits.reserve(1)?;
        self.purge(m);
        self.solicits.push(Solicitation {
            moment: m,
            rloc,
            eid,
        });
        Ok(())
    }
}

// Copies of two lists, made together because each failure drops all that was copied before.
fn copies<T: Keyed + Copy, U: Keyed + Copy>(
    first: &KeyedList<T>,
    second: &KeyedList<U>,
) -> Result<(KeyedList<T>, KeyedList<U>), NoMemory>
    ensures { IfOk result (λ both. both ≡ (first.now, second.now)) }
{
    let copy = first.copy()?;
    Ok((copy, second.copy()?))
}
