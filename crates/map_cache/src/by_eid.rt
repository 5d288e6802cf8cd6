// Mappings under names, and the name of each under its EID.
ghost use Rattle.std.specs.Prelude.{◌≡◌, ◌≤◌, ◌<◌, ◌+◌, ◌*◌, ◌^◌, [], length, max, false, is_some, sum_by, IfOk, OnOk, IsOk};
ghost use Rattle.std.specs.Option.{option_copied};
ghost use Rattle.mapping_records.specs.Orders.{eid_order, put_in_order};
ghost use Rattle.prefix_table.specs.Limits.{most_nodes};
ghost use Rattle.map_cache.specs.Cache.{bits_told, exact, in_force, lasting, mapping_named, without_eid};
ghost use Rattle.map_cache.specs.Limits.{most_mappings};
ghost use Rattle.map_cache.specs.Lists.{IsAscending};

use crate::bits::tell;
use crate::copies::copied;
use crate::searching::is_live;
use crate::stay::{Stay, stay_lasts, stay_until};
use crate::{Iter, Mapping, NoMemory};
use mapping_records::Eid;
use node_store::{NodeStore, Reads};
use prefix_table::PrefixTable;
use std::alloc::Global;
use std::marker::Model;

/// Mappings in order of EID, one of each EID. No mapping is moved where another comes or goes.
#[derive(Drop)]
pub(crate) struct ByEid {
    // The mappings, each under a name.
    store: NodeStore<Mapping>,
    stays: PrefixTable<Stay>,
}

impl Model for ByEid {
    ghost use Rattle.std.specs.Prelude.{◌+◌, length, max, min, sum_by};
    ghost use Rattle.map_cache.specs.Filed.{Filed, IsFiled, mappings_at};

    ghost Value = { Filed };

    ghost view = { λ filed. record {
      mappings = mappings_at filed.store filed.stays.pairs;
      spare = min filed.store.rooms filed.stays.spare;
      room = max filed.store.rooms filed.stays.spare;
      kept = length filed.store.slots + (filed.store.rooms + (filed.stays.kept
          + sum_by (λ mapping. length mapping.details.locators)
          (mappings_at filed.store filed.stays.pairs)));
    } };

    ghost invariant = { λ filed. IsFiled filed.store filed.stays.pairs };
}

impl ByEid {
    /// A `ByEid` without mappings. Takes no memory.
    pub(crate) fn new(alloc: Global) -> ByEid
        ensures mappings { result.mappings ≡ [] }
        ensures spare { result.spare ≡ 0 }
        ensures room { result.room ≡ 0 }
    {
        ByEid {
            store: NodeStore::new(alloc),
            stays: PrefixTable::new(alloc),
        }
    }

    /// A copy with as much room, which shares no memory with the original.
    pub(crate) fn copy(&self, alloc: Global) -> Result<ByEid, NoMemory>
        ensures { IfOk result (λ copy. copy ≡ self.now) }
    {
        let store = self
            .store
            .copy(|mapping| copied(alloc, mapping), &mut Reads::new())?;
        let stays = self.stays.copy(|stay| Ok(*stay))?;
        Ok(ByEid { store, stays })
    }

    /// Makes room for `n` further mappings.
    pub(crate) fn reserve(&mut self, n: u32) -> Result<(), NoMemory>
        requires n { n ≤ most_mappings }
        requires len { length self.old.mappings ≤ most_mappings }
        ensures mappings { self.new.mappings ≡ self.old.mappings }
        ensures spare { self.old.spare ≤ self.new.spare }
        ensures at_most { self.new.spare ≤ max self.old.spare n }
        ensures room { self.new.room ≤ max self.old.room n }
        ensures ok { OnOk result (n ≤ self.new.spare) }
        ensures enough { n ≤ self.old.spare → IsOk result }
    {
        // These calls bring the fact that there are as many names as mappings.
        let _ = (self.store.rooms(), self.stays.len());
        self.store.make_room(n)?;
        self.stays.reserve(n)
    }

    /// The number of mappings.
    pub(crate) fn len(&self) -> usize
        ensures len { result ≡ length self.now.mappings }
        ensures ascending { IsAscending self.now.mappings }
        ensures tied { self.now.spare ≤ self.now.room }
        ensures kept { self.now.kept ≤ 9 * (result + self.now.room)
            + sum_by (λ mapping. length mapping.details.locators) self.now.mappings }
    {
        let _ = self.store.rooms();
        self.stays.len() as usize
    }

    /// The mappings in order of EID.
    pub(crate) fn iter(&self) -> Iter<'_>
        ensures { result ≡ self.now.mappings }
    {
        Iter::new(&self.store, self.stays.iter())
    }

    /// Whether there is a mapping of that EID.
    pub(crate) fn has(&self, eid: &Eid) -> bool
        ensures { result ≡ is_some (exact self.now.mappings eid.now) }
    {
        self.stays.get(eid, &mut Reads::new()).is_some()
    }

    /// The longest of the mappings that haven't ended at a moment and cover an EID, with its name, or
    /// None.
    pub(crate) fn in_force_named(
        &self,
        m: u64,
        eid: &Eid,
        reads: &mut Reads,
    ) -> Option<(u32, &Mapping)>
        requires { reads.old < 2 ^ 63 }
        ensures found { mapping_named result ≡ in_force (lasting m self.now.mappings) eid.now }
        ensures counted { reads.old ≤ reads.new }
        ensures bound { reads.new ≤ reads.old + most_nodes }
    {
        match self
            .stays
            .longest_where(eid, |stay| stay_lasts(m, stay), reads)
        {
            None => None,
            Some((_, stay)) => {
                let mapping = self.store.read(stay.name, &mut Reads::new());
                Some((stay.name, mapping))
            }
        }
    }

    /// The mapping of exactly that EID, or None where there is none or it has ended at a moment.
    pub(crate) fn exact(&self, m: u64, eid: &Eid, reads: &mut Reads) -> Option<&Mapping>
        requires { reads.old < 2 ^ 63 }
        ensures found { option_copied result ≡ exact (lasting m self.now.mappings) eid.now }
        ensures counted { reads.old ≤ reads.new }
        ensures bound { reads.new ≤ reads.old + most_nodes }
    {
        let stay = self.stays.get(eid, reads)?;
        if !stay_lasts(m, stay) {
            return None;
        }
        Some(self.store.read(stay.name, &mut Reads::new()))
    }

    /// The mapping of exactly that EID, or None where there is none or it has ended at a moment. It is
    /// looked up only where `name` isn't its name.
    pub(crate) fn exact_at(
        &self,
        m: u64,
        eid: &Eid,
        name: u32,
        reads: &mut Reads,
    ) -> Option<&Mapping>
        requires { reads.old < 2 ^ 63 }
        ensures found { option_copied result ≡ exact (lasting m self.now.mappings) eid.now }
        ensures counted { reads.old ≤ reads.new }
        ensures bound { reads.new ≤ reads.old + most_nodes }
    {
        // This call brings the fact that each name is that of a mapping.
        let _ = self.store.rooms();
        if self.store.has(name) {
            let mapping = self.store.read(name, &mut Reads::new());
            if is_live(m, eid, mapping) {
                return Some(mapping);
            }
        }
        self.exact(m, eid, reads)
    }

    /// There is a mapping of that EID that hasn't ended at a moment.
    pub(crate) fn lasts(&self, m: u64, eid: &Eid) -> bool
        ensures { result ≡ is_some (exact (lasting m self.now.mappings) eid.now) }
    {
        self.exact(m, eid, &mut Reads::new()).is_some()
    }

    /// Adds a mapping of an EID that has none. Takes no memory.
    pub(crate) fn put(&mut self, mapping: Mapping)
        requires spare { 0 < self.old.spare }
        requires new { is_some (exact self.old.mappings mapping.eid) ≡ false }
        ensures mappings { self.new.mappings
            ≡ put_in_order (λ item. item.eid) eid_order mapping self.old.mappings }
        ensures spare { self.new.spare + 1 ≡ self.old.spare }
        ensures room { self.new.room + 1 ≡ self.old.room }
    {
        let (eid, fixed, end) = (mapping.eid, mapping.fixed, mapping.end);
        let name = self.store.put(mapping);
        self.stays.insert(eid, stay_until(fixed, end, name));
    }

    /// Removes the mapping of an EID and returns it, or None where there is none. Takes no memory.
    pub(crate) fn take(&mut self, eid: &Eid) -> Option<Mapping>
        ensures taken { result ≡ exact self.old.mappings eid.now }
        ensures mappings { self.new.mappings ≡ without_eid eid.now self.old.mappings }
        ensures spare { self.old.spare ≤ self.new.spare }
        ensures total { length self.new.mappings + self.new.spare
            ≡ length self.old.mappings + self.old.spare }
        ensures room { length self.new.mappings + self.new.room
            ≡ length self.old.mappings + self.old.room }
    {
        let stay = self.stays.remove(eid)?;
        Some(self.store.drop_node(stay.name))
    }

    /// Replaces the lowest `width` status bits of the mapping of an EID.
    pub(crate) fn tell(&mut self, eid: &Eid, bits: u32, width: u8)
        requires { width ≤ 32 }
        ensures mappings { self.new.mappings ≡ bits_told eid.now bits width self.old.mappings }
        ensures spare { self.new.spare ≡ self.old.spare }
        ensures room { self.new.room ≡ self.old.room }
    {
        if let Some(stay) = self.stays.get(eid, &mut Reads::new()) {
            let name = stay.name;
            tell(bits, width, self.store.edit(name));
        }
    }
}
