// Mappings in order of EID, and their indexes.
ghost use Rattle.std.specs.Prelude.{◌≡◌, ◌≤◌, ◌<◌, ◌+◌, ◌*◌, ◌/◌, [], false, length, max, is_some, IfOk, OnOk, IsOk};
ghost use Rattle.mapping_records.specs.Orders.{eid_order, put_in_order};
ghost use Rattle.lisp_settings.specs.Instances.{AreLimits};
ghost use Rattle.named_list.specs.Limits.{ring_names};
ghost use Rattle.map_cache.specs.Cache.{bits_told, exact, lasting, without_eid};
ghost use Rattle.map_cache.specs.Limits.{most_mappings};
ghost use Rattle.map_cache.specs.Lists.{IsAscending, IsFew};

use crate::by_eid::ByEid;
use crate::counts::Counts;
use crate::endings::{add_ending, drop_ending};
use crate::keys::Ending;
use crate::names::{Names, names_of};
use crate::{Iter, Limits, Mapping, NoMemory};
use mapping_records::Eid;
use ordered_set::OrderedSet;
use std::alloc::Global;
use std::marker::Model;

/// Mappings, each EID once, what finds them by EID, by end and by name, and how many each instance has.
#[derive(Drop)]
pub(crate) struct Indexed {
    pub(crate) by_eid: ByEid,
    // The ends of mappings that aren't fixed.
    pub(crate) endings: OrderedSet<Ending>,
    // Of all.
    pub(crate) names: Names,
    // How many mappings that aren't fixed each instance has.
    pub(crate) counts: Counts,
    // The allocator of copies.
    alloc: Global,
}

impl Model for Indexed {
    ghost use Rattle.std.specs.Prelude.{◌+◌, ◌-◌, length, max, min};
    ghost use Rattle.map_cache.specs.Indexed.{IsFound, Listed};

    ghost Value = { Listed };

    ghost view = { λ indexed. record {
      mappings = indexed.by_eid.mappings;
      spare = min indexed.by_eid.spare (length indexed.endings.keys + indexed.endings.spare
          - length indexed.by_eid.mappings);
      mapping_places = max (max (length indexed.by_eid.mappings + indexed.by_eid.room)
          (length indexed.endings.keys + indexed.endings.spare)) indexed.names.places;
      kept = indexed.by_eid.kept + (indexed.endings.kept + (indexed.names.kept
          + (length indexed.counts.limits + length indexed.counts.learned)));
      limits = indexed.counts.limits;
    } };

    ghost invariant = { λ indexed. IsFound indexed.by_eid.mappings
        (min indexed.by_eid.spare (length indexed.endings.keys + indexed.endings.spare
        - length indexed.by_eid.mappings))
        indexed.endings.keys (length indexed.endings.keys + indexed.endings.spare)
        indexed.counts indexed.names };
}

impl Indexed {
    /// An index without mappings, with a copy of the limits of instances.
    pub(crate) fn new(alloc: Global, limits: &Limits) -> Result<Indexed, NoMemory>
        ensures mappings { IfOk result (λ indexed. indexed.mappings ≡ []) }
        ensures spare { IfOk result (λ indexed. indexed.spare ≡ 0) }
        ensures mapping_places { IfOk result (λ indexed. indexed.mapping_places ≡ 0) }
        ensures limits { IfOk result (λ indexed. indexed.limits ≡ limits.now) }
    {
        let counts = Counts::new(alloc, limits)?;
        Ok(Indexed {
            by_eid: ByEid::new(alloc),
            endings: OrderedSet::new(alloc),
            names: Names::new(alloc),
            counts,
            alloc,
        })
    }

    /// A copy with as much room, which shares no memory with the original.
    pub(crate) fn copy(&self) -> Result<Indexed, NoMemory>
        ensures { IfOk result (λ copy. copy ≡ self.now) }
    {
        let alloc = self.alloc;
        let by_eid = self.by_eid.copy(alloc)?;
        let endings = self.endings.copy()?;
        let names = self.names.copy()?;
        let counts = self.counts.copy(alloc)?;
        Ok(Indexed {
            by_eid,
            endings,
            names,
            counts,
            alloc,
        })
    }

    /// Makes room for `n` further mappings.
    pub(crate) fn reserve(&mut self, n: u32) -> Result<(), NoMemory>
        requires n { n ≤ most_mappings }
        requires len { length self.old.mappings ≤ most_mappings }
        ensures mappings { self.new.mappings ≡ self.old.mappings }
        ensures spare { self.old.spare ≤ self.new.spare }
        ensures at_most { self.new.spare ≤ max self.old.spare n }
        ensures mapping_places { self.new.mapping_places
            ≤ max self.old.mapping_places (length self.old.mappings + n) }
        ensures ok { OnOk result (n ≤ self.new.spare) }
        ensures enough { n ≤ self.old.spare → IsOk result }
        ensures limits { self.new.limits ≡ self.old.limits }
    {
        if n == 0 {
            return Ok(());
        }
        // The lengths say that no key is there twice, so that they are few. Each mapping has a place
        // among the endings, also one that is fixed.
        let _ = self.names.len();
        let len = self.by_eid.len();
        let fixed = len - self.endings.len();
        self.names.reserve(len as u32 + n)?;
        self.by_eid.reserve(n)?;
        self.endings.reserve(n + fixed as u32)
    }

    /// Begins to find mappings by name, with room for all that there is place for.
    pub(crate) fn begin_names(&mut self) -> Result<(), NoMemory>
        ensures mappings { self.new.mappings ≡ self.old.mappings }
        ensures spare { self.new.spare ≡ self.old.spare }
        ensures mapping_places { self.new.mapping_places ≡ self.old.mapping_places }
        ensures limits { self.new.limits ≡ self.old.limits }
    {
        if self.names.is_begun() {
            return Ok(());
        }
        let places = self.endings.len() + self.endings.spare() as usize;
        let names = names_of(self.alloc, &self.by_eid, places as u32)?;
        self.names = names;
        Ok(())
    }

    /// The number of mappings.
    pub(crate) fn len(&self) -> usize
        ensures len { result ≡ length self.now.mappings }
        ensures ascending { IsAscending self.now.mappings }
    {
        self.by_eid.len()
    }

    /// The number of mappings.
    pub(crate) fn len_kept(&self) -> usize
        ensures len { result ≡ length self.now.mappings }
        ensures tied { result + self.now.spare ≤ self.now.mapping_places }
        ensures kept { self.now.kept
            ≤ 107 * self.now.mapping_places + self.now.mapping_places / ring_names
            + 32 * self.now.mapping_places / ring_names + 2 * length self.now.limits }
        ensures limits { AreLimits self.now.limits }
    {
        // The calls of `len` bring the facts of how much is kept.
        let _ = (self.endings.len(), self.names.len(), self.counts.len());
        self.by_eid.len()
    }

    /// The mappings in order of EID.
    pub(crate) fn iter(&self) -> Iter<'_>
        ensures { result ≡ self.now.mappings }
    {
        self.by_eid.iter()
    }

    /// Puts a mapping in place of the one of its EID, or adds it. Takes no memory.
    pub(crate) fn put(&mut self, mapping: Mapping)
        requires few { length self.old.mappings ≤ most_mappings }
        requires locators { IsFew mapping }
        requires spare { 0 < self.old.spare }
        ensures mappings { self.new.mappings ≡ put_in_order (λ item. item.eid) eid_order mapping
            (without_eid mapping.eid self.old.mappings) }
        ensures spare { self.old.spare ≤ self.new.spare + 1 }
        ensures total { length self.new.mappings + self.new.spare
            ≤ length self.old.mappings + self.old.spare }
        ensures mapping_places { self.new.mapping_places ≤ self.old.mapping_places }
        ensures limits { self.new.limits ≡ self.old.limits }
    {
        self.clear(&mapping.eid);
        self.enter(mapping);
    }

    // Removes the mapping of an EID, where there is one. Mostly there is none, and a look-up is
    // cheaper than a way down that may change the nodes that it passes.
    fn clear(&mut self, eid: &Eid)
        ensures mappings { self.new.mappings ≡ without_eid eid.now self.old.mappings }
        ensures spare { self.old.spare ≤ self.new.spare }
        ensures total { length self.new.mappings + self.new.spare
            ≤ length self.old.mappings + self.old.spare }
        ensures mapping_places { self.new.mapping_places ≤ self.old.mapping_places }
        ensures limits { self.new.limits ≡ self.old.limits }
    {
        if self.has(eid) {
            self.drop_eid(eid);
        }
    }

    // Adds a mapping of an EID that has none.
    fn enter(&mut self, mapping: Mapping)
        requires few { length self.old.mappings ≤ most_mappings }
        requires locators { IsFew mapping }
        requires spare { 0 < self.old.spare }
        requires new { is_some (exact self.old.mappings mapping.eid) ≡ false }
        ensures mappings { self.new.mappings ≡ put_in_order (λ item. item.eid) eid_order mapping
            self.old.mappings }
        ensures spare { self.new.spare + 1 ≡ self.old.spare }
        ensures total { length self.new.mappings + self.new.spare
            ≡ length self.old.mappings + self.old.spare }
        ensures mapping_places { self.new.mapping_places ≤ self.old.mapping_places }
        ensures limits { self.new.limits ≡ self.old.limits }
    {
        // The lengths say that no key is there twice, so that there is a place for one more.
        let _ = (self.endings.len(), self.names.len());
        self.counts.add(&mapping);
        add_ending(&mapping, &mut self.endings);
        self.names.add(&mapping);
        self.by_eid.put(mapping);
    }

    /// Removes the mapping of an EID, where there is one. Takes no memory.
    pub(crate) fn drop_eid(&mut self, eid: &Eid)
        ensures mappings { self.new.mappings ≡ without_eid eid.now self.old.mappings }
        ensures spare { self.old.spare ≤ self.new.spare }
        ensures total { length self.new.mappings + self.new.spare
            ≤ length self.old.mappings + self.old.spare }
        ensures mapping_places { self.new.mapping_places ≤ self.old.mapping_places }
        ensures limits { self.new.limits ≡ self.old.limits }
    {
        // The call of `len` brings the fact that mappings are in order.
        let _ = self.by_eid.len();
        if let Some(mapping) = self.by_eid.take(eid) {
            self.counts.drop(&mapping);
            drop_ending(&mapping, &mut self.endings);
            self.names.remove(&mapping);
        }
    }

    /// Removes the mappings that have ended at a moment. Takes no memory.
    pub(crate) fn drop_ended(&mut self, m: u64)
        ensures mappings { self.new.mappings ≡ lasting m self.old.mappings }
        ensures spare { self.old.spare ≤ self.new.spare }
        ensures total { length self.new.mappings + self.new.spare
            ≤ length self.old.mappings + self.old.spare }
        ensures mapping_places { self.new.mapping_places ≤ self.old.mapping_places }
        ensures limits { self.new.limits ≡ self.old.limits }
    {
        while let Some(eid) = self.first_ended(m) {
            self.drop_eid(&eid);
        }
    }

    /// Replaces the lowest `width` status bits of the mapping of an EID.
    pub(crate) fn tell(&mut self, eid: &Eid, bits: u32, width: u8)
        requires { width ≤ 32 }
        ensures mappings { self.new.mappings ≡ bits_told eid.now bits width self.old.mappings }
        ensures spare { self.new.spare ≡ self.old.spare }
        ensures mapping_places { self.new.mapping_places ≡ self.old.mapping_places }
        ensures limits { self.new.limits ≡ self.old.limits }
    {
        self.by_eid.tell(eid, bits, width);
    }
}
