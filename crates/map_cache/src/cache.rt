// A map-cache: mappings that were learned, and the moment until which they were purged.
ghost use Rattle.std.specs.Prelude.{◌≡◌, ◌≤◌, ◌<◌, ◌+◌, ◌*◌, ◌/◌, ◌^◌, ◌↔◌, ◌≢◌, ◌&&◌, ◌||◌, nat_lt, is_some, Some, IfOk, IfSome, IsTrue, IsFalse, IsOk, [], length, max, slice_get, Err, OnOk, OnErr};
ghost use Rattle.std.specs.Option.{option_copied};
ghost use Rattle.lisp_settings.specs.Instances.{AreLimits, mappings_in};
ghost use Rattle.prefix_table.specs.Limits.{most_nodes};
ghost use Rattle.named_list.specs.Limits.{ring_names};
ghost use Rattle.map_cache.specs.Cache.{bits_told, exact, has_room, in_force, lasting, learned, learned_in, mapping_named};
ghost use Rattle.map_cache.specs.Limits.{most_locators, most_mappings};
ghost use Rattle.map_cache.specs.Lists.{IsFew};
ghost use Rattle.map_cache.specs.Named.{least_named, named_above};
ghost use Rattle.map_cache.specs.declared.fault.LearnFault.TheVariants.{CacheFull, Memory};

use crate::indexed::Indexed;
use crate::learning::fresh;
use crate::searching::lasts;
use crate::{Iter, LearnFault, Limits, MOST_MAPPINGS, Mapping, NoMemory, Reads};
use ip_headers::Addr;
use mapping_records::{Eid, Record};
use std::alloc::Global;
use std::marker::Model;

/// A map-cache: mappings that were learned, in order of EID, of each EID the last one. A question
/// at a moment considers only mappings that haven't ended then.
#[derive(Drop)]
pub struct MapCache {
    now: u64,
    indexed: Indexed,
}

impl Model for MapCache {
    ghost use Rattle.std.specs.Prelude.{◌≤◌, length};
    ghost use Rattle.map_cache.specs.Lists.{AllLast};
    ghost use Rattle.map_cache.specs.Cache.{Cache};
    ghost use Rattle.map_cache.specs.Limits.{most_mappings};

    ghost Value = { Cache };

    ghost view = { λ cache. record {
      now = cache.now;
      mappings = cache.indexed.mappings;
      spare = cache.indexed.spare;
      mapping_places = cache.indexed.mapping_places;
      kept = cache.indexed.kept;
      limits = cache.indexed.limits;
    } };

    ghost invariant = { λ cache. (length cache.indexed.mappings ≤ most_mappings)
        × AllLast cache.now cache.indexed.mappings };
}

impl MapCache {
    /// A map-cache without mappings, at moment 0, with a copy of the limits of instances. An
    /// instance without a limit has no place for further mappings, except fixed ones.
    pub fn new(alloc: Global, limits: &Limits) -> Result<MapCache, NoMemory>
        ensures now { IfOk result (λ cache. cache.now ≡ 0) }
        ensures mappings { IfOk result (λ cache. cache.mappings ≡ []) }
        ensures spare { IfOk result (λ cache. cache.spare ≡ 0) }
        ensures mapping_places { IfOk result (λ cache. cache.mapping_places ≡ 0) }
        ensures limits { IfOk result (λ cache. cache.limits ≡ limits.now) }
    {
        let indexed = Indexed::new(alloc, limits)?;
        Ok(MapCache { now: 0, indexed })
    }

    /// A copy with the same mappings, limits and moment, and with as much room, which shares no
    /// memory with the original.
    pub fn copy(&self) -> Result<MapCache, NoMemory>
        ensures { IfOk result (λ copy. copy ≡ self.entry.now) }
    {
        let indexed = self.indexed.copy()?;
        Ok(MapCache {
            now: self.now,
            indexed,
        })
    }

    /// The greatest moment at which `purge` or `learn` was called, in nanoseconds, or 0.
    pub fn now(&self) -> u64
        ensures { result ≡ self.entry.now.now }
    {
        self.now
    }

    /// How many mappings are kept. What all lists have in all is at most 107 items for each mapping for
    /// which there is place, one for each ring of their ends and of the names of 32 locators of each, and
    /// two for each limit.
    pub fn len(&self) -> usize
        ensures len { result ≡ length self.entry.now.mappings }
        ensures most { result ≤ most_mappings }
        ensures tied { result + self.entry.now.spare ≤ self.entry.now.mapping_places }
        ensures kept { self.entry.now.kept
            ≤ 107 * self.entry.now.mapping_places
            + self.entry.now.mapping_places / ring_names
            + 32 * self.entry.now.mapping_places / ring_names
            + 2 * length self.entry.now.limits }
        ensures limits { AreLimits self.entry.now.limits }
    {
        self.indexed.len_kept()
    }

    /// The mappings that are kept, in order of EID.
    pub fn iter(&self) -> Iter<'_>
        ensures { result ≡ self.entry.now.mappings }
    {
        self.indexed.iter()
    }

    /// Makes room for `n` further mappings, with those that there is room for already. The number
    /// of locators is ignored, because locators come with their mapping in a list of their own.
    pub fn reserve(&mut self, n: u32, _locators: u32) -> Result<(), NoMemory>
        requires mappings { n ≤ most_mappings }
        ensures now { self.new.now ≡ self.old.now }
        ensures mappings { self.new.mappings ≡ self.old.mappings }
        ensures spare { self.old.spare ≤ self.new.spare }
        ensures at_most { self.new.spare ≤ max self.old.spare n }
        ensures mapping_places { self.new.mapping_places
            ≤ max self.old.mapping_places (length self.old.mappings + n) }
        ensures ok { OnOk result (n ≤ self.new.spare) }
        ensures enough { n ≤ self.old.spare → IsOk result }
        ensures limits { self.new.limits ≡ self.old.limits }
    {
        self.indexed.reserve(n)
    }

    /// Begins to keep the locators of all mappings in order of their addresses, which `next_locator`
    /// then looks at in place of the mappings. Where memory is refused, it goes on as before.
    pub fn begin_names(&mut self) -> Result<(), NoMemory>
        ensures now { self.new.now ≡ self.old.now }
        ensures mappings { self.new.mappings ≡ self.old.mappings }
        ensures spare { self.new.spare ≡ self.old.spare }
        ensures mapping_places { self.new.mapping_places ≡ self.old.mapping_places }
        ensures limits { self.new.limits ≡ self.old.limits }
    {
        self.indexed.begin_names()
    }

    /// Removes the mappings that have ended at a moment. Looks at no other mapping.
    pub fn purge(&mut self, m: u64)
        requires { self.old.now ≤ m }
        ensures now { self.new.now ≡ m }
        ensures mappings { self.new.mappings ≡ lasting m self.old.mappings }
        ensures spare { self.old.spare ≤ self.new.spare }
        ensures total { length self.new.mappings + self.new.spare
            ≤ length self.old.mappings + self.old.spare }
        ensures mapping_places { self.new.mapping_places ≤ self.old.mapping_places }
        ensures limits { self.new.limits ≡ self.old.limits }
    {
        self.indexed.drop_ended(m);
        self.now = m;
    }

    /// Learns a mapping at a moment, in place of the one of its EID; a TTL of 0 removes that one.
    /// Where the mapping is refused, only the purge has taken place.
    pub fn learn(&mut self, m: u64, mapping: Record, fixed: bool) -> Result<(), LearnFault>
        requires later { self.old.now ≤ m }
        requires locators { length mapping.locators ≤ most_locators }
        requires fixed { IsTrue fixed → mapping.ttl ≢ 0 }
        ensures now { self.new.now ≡ m }
        ensures ok { OnOk result (self.new.mappings ≡ learned m mapping fixed self.old.mappings) }
        ensures err { OnErr result (self.new.mappings ≡ lasting m self.old.mappings) }
        ensures full { (result ≡ Err CacheFull)
            ↔ IsFalse (has_room self.old.limits mapping fixed (lasting m self.old.mappings)) }
        ensures memory { 0 < self.old.spare → result ≢ Err Memory }
        ensures spare { self.old.spare ≤ self.new.spare + 1 }
        ensures total { length self.new.mappings + self.new.spare
            ≤ max (length self.old.mappings + self.old.spare)
            (length (lasting m self.old.mappings) + 1) }
        ensures taken { mapping.ttl ≡ 0 → length self.new.mappings + self.new.spare
            ≤ length self.old.mappings + self.old.spare }
        ensures mapping_places { self.new.mapping_places
            ≤ max self.old.mapping_places (length self.old.mappings + 1) }
        ensures limits { self.new.limits ≡ self.old.limits }
    {
        self.purge(m);
        if mapping.ttl == 0 {
            self.indexed.drop_eid(&mapping.eid);
            return Ok(());
        }
        if !self.has_place(&mapping.eid, fixed) {
            return Err(LearnFault::CacheFull);
        }
        self.indexed.reserve(1)?;
        let mapping = fresh(m, mapping, fixed);
        self.indexed.put(mapping);
        Ok(())
    }

    // Whether a mapping of that EID is kept, or there is a place for one more.
    fn has_place(&self, eid: &Eid, fixed: bool) -> bool
        ensures { result ≡ (is_some (exact self.entry.now.mappings eid.now)
            || (nat_lt (length self.entry.now.mappings) most_mappings
            && (fixed || nat_lt (learned_in eid.now.iid self.entry.now.mappings)
            (mappings_in self.entry.now.limits eid.now.iid)))) }
    {
        self.is_below_limits(eid.iid, fixed) || self.indexed.has(eid)
    }

    // Whether fewer mappings are kept than the limit of all and, unless the new one is fixed, fewer
    // are learned in the instance than its limit.
    fn is_below_limits(&self, iid: u32, fixed: bool) -> bool
        ensures { result ≡ (nat_lt (length self.entry.now.mappings) most_mappings
            && (fixed || nat_lt (learned_in iid self.entry.now.mappings)
            (mappings_in self.entry.now.limits iid))) }
    {
        self.indexed.len() < MOST_MAPPINGS && (fixed || self.has_place_in(self.now, iid))
    }

    /// Replaces the status bits of the first `width` locators in the live mapping of that EID; the
    /// lowest bit is that of the first locator.
    pub fn set_bits(&mut self, eid: &Eid, bits: u32, width: u8)
        requires { width ≤ 32 }
        ensures now { self.new.now ≡ self.old.now }
        ensures mappings { self.new.mappings ≡ bits_told eid.now bits width self.old.mappings }
        ensures spare { self.new.spare ≡ self.old.spare }
        ensures mapping_places { self.new.mapping_places ≤ self.old.mapping_places }
        ensures limits { self.new.limits ≡ self.old.limits }
    {
        self.indexed.tell(eid, bits, width);
    }

    /// The mapping in force for an EID at a moment: the longest of those that haven't ended and
    /// cover it, or None. It has at most 32 locators. Reads at most `MOST_NODES` nodes.
    pub fn in_force(&self, m: u64, eid: &Eid, reads: &mut Reads) -> Option<&Mapping>
        requires later { self.now.now ≤ m }
        requires reads { reads.old < 2 ^ 63 }
        ensures found { option_copied result
            ≡ in_force (lasting m self.entry.now.mappings) eid.now }
        ensures few { IfSome (option_copied result) IsFew }
        ensures counted { reads.old ≤ reads.new }
        ensures bound { reads.new ≤ reads.old + most_nodes }
    {
        match self.in_force_named(m, eid, reads) {
            None => None,
            Some((_, mapping)) => Some(mapping),
        }
    }

    /// The mapping that `in_force` answers, with the name under which it is kept, or None. A mapping
    /// has its name until it is replaced or removed; then another one may get it.
    pub fn in_force_named(&self, m: u64, eid: &Eid, reads: &mut Reads) -> Option<(u32, &Mapping)>
        requires later { self.now.now ≤ m }
        requires reads { reads.old < 2 ^ 63 }
        ensures found { mapping_named result
            ≡ in_force (lasting m self.entry.now.mappings) eid.now }
        ensures few { IfSome (mapping_named result) IsFew }
        ensures counted { reads.old ≤ reads.new }
        ensures bound { reads.new ≤ reads.old + most_nodes }
    {
        self.indexed.in_force_named(m, eid, reads)
    }

    /// The mapping of exactly that EID, or None where there is none or it has ended at a moment.
    /// Reads at most `MOST_NODES` nodes.
    pub fn exact(&self, m: u64, eid: &Eid, reads: &mut Reads) -> Option<&Mapping>
        requires later { self.now.now ≤ m }
        requires reads { reads.old < 2 ^ 63 }
        ensures found { option_copied result ≡ exact (lasting m self.entry.now.mappings) eid.now }
        ensures counted { reads.old ≤ reads.new }
        ensures bound { reads.new ≤ reads.old + most_nodes }
    {
        self.indexed.exact(m, eid, reads)
    }

    /// The mapping that `exact` answers, for any name: it is looked up only where `name` isn't that
    /// under which it is kept.
    pub fn exact_at(&self, m: u64, eid: &Eid, name: u32, reads: &mut Reads) -> Option<&Mapping>
        requires later { self.now.now ≤ m }
        requires reads { reads.old < 2 ^ 63 }
        ensures found { option_copied result ≡ exact (lasting m self.entry.now.mappings) eid.now }
        ensures counted { reads.old ≤ reads.new }
        ensures bound { reads.new ≤ reads.old + most_nodes }
    {
        self.indexed.exact_at(m, eid, name, reads)
    }

    /// The least address above `after` that a mapping names which hasn't ended at a moment, by a
    /// locator with a priority other than 255, and the least EID of the mappings that name it.
    /// Without `after`, the least of all; None where there is none. IPv4 addresses are below IPv6
    /// addresses.
    pub fn next_locator(&self, m: u64, after: Option<&Addr>) -> Option<(Addr, Eid)>
        requires { self.now.now ≤ m }
        ensures { result ≡ least_named
            (named_above (option_copied after.entry) (lasting m self.entry.now.mappings)) }
    {
        self.indexed.next_named(m, after)
    }

    /// How many mappings haven't ended at a moment. Where none has ended, no mapping is looked at.
    pub fn live_count(&self, m: u64) -> u32
        requires { self.now.now ≤ m }
        ensures count { result ≡ length (lasting m self.entry.now.mappings) }
        ensures most { result ≤ most_mappings }
    {
        if self.indexed.first_ended(m).is_none() {
            return self.indexed.len() as u32;
        }
        let mut count = 0;
        for mapping in self.indexed.iter() {
            if lasts(m, mapping) {
                count += 1;
            }
        }
        count
    }

    /// How many mappings of an instance that aren't fixed haven't ended at a moment. Where none has
    /// ended, no mapping is looked at, unless the instance has no limit.
    pub fn learned_in(&self, m: u64, iid: u32) -> u32
        requires later { self.now.now ≤ m }
        ensures { result ≡ learned_in iid (lasting m self.entry.now.mappings) }
    {
        self.indexed.learned_in(m, iid)
    }

    /// Whether an instance may learn one more mapping at a moment: those that aren't fixed and
    /// haven't ended are fewer than its limit. Without a limit it may learn none.
    pub fn has_place_in(&self, m: u64, iid: u32) -> bool
        requires later { self.now.now ≤ m }
        ensures { result ≡ nat_lt (learned_in iid (lasting m self.entry.now.mappings))
            (mappings_in self.entry.now.limits iid) }
    {
        self.indexed.has_place_in(m, iid)
    }
}
