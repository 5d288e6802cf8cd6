// Mappings, found by end and by locator.
ghost use Rattle.std.specs.Prelude.{◌≡◌, ◌≤◌, ◌<◌, ◌+◌, ◌/◌, ◌^◌, false, length, Some, is_some, IfSome};
ghost use Rattle.std.specs.Option.{option_copied};
ghost use Rattle.prefix_table.specs.Limits.{most_nodes};
ghost use Rattle.map_cache.specs.Cache.{exact, in_force, lasting, mapping_named, without_eid};
ghost use Rattle.map_cache.specs.Lists.{IsFew};
ghost use Rattle.map_cache.specs.Named.{least_named, named_above};

use crate::indexed::Indexed;
use crate::naming::lesser_of;
use crate::searching::lasts;
use crate::{Mapping, Reads};
use ip_headers::Addr;
use mapping_records::Eid;

impl Indexed {
    /// The EID of the mapping that ended first, or None where none has ended at a moment.
    pub(crate) fn first_ended(&self, m: u64) -> Option<Eid>
        ensures ended { IfSome result (λ eid.
            lasting m (without_eid eid self.now.mappings) ≡ lasting m self.now.mappings) }
        ensures less { IfSome result (λ eid.
            length (without_eid eid self.now.mappings) < length self.now.mappings) }
        ensures none { is_some result ≡ false → lasting m self.now.mappings ≡ self.now.mappings }
    {
        // The calls of `len` bring the fact that keys and mappings are in order.
        let _ = (self.endings.len(), self.by_eid.len());
        let ending = self.endings.get(0)?;
        if u128::from(m) < ending.end {
            return None;
        }
        Some(ending.eid)
    }

    /// Whether there is a mapping of that EID.
    pub(crate) fn has(&self, eid: &Eid) -> bool
        ensures { result ≡ is_some (exact self.now.mappings eid.now) }
    {
        self.by_eid.has(eid)
    }

    /// The longest of the mappings that haven't ended at a moment and cover an EID, with its name, or
    /// None.
    pub(crate) fn in_force_named(
        &self,
        m: u64,
        eid: &Eid,
        reads: &mut Reads,
    ) -> Option<(u32, &Mapping)>
        requires { reads.old < 2 ^ 63 }
        ensures found { mapping_named result ≡ in_force (lasting m self.now.mappings) eid.now }
        ensures few { IfSome (mapping_named result) IsFew }
        ensures counted { reads.old ≤ reads.new }
        ensures bound { reads.new ≤ reads.old + most_nodes }
    {
        self.by_eid.in_force_named(m, eid, reads)
    }

    /// The mapping of exactly that EID, or None where there is none or it has ended at a moment.
    pub(crate) fn exact(&self, m: u64, eid: &Eid, reads: &mut Reads) -> Option<&Mapping>
        requires { reads.old < 2 ^ 63 }
        ensures found { option_copied result ≡ exact (lasting m self.now.mappings) eid.now }
        ensures counted { reads.old ≤ reads.new }
        ensures bound { reads.new ≤ reads.old + most_nodes }
    {
        self.by_eid.exact(m, eid, reads)
    }

    /// The mapping of exactly that EID, or None where there is none or it has ended at a moment. It is
    /// looked up only where `name` isn't its name.
    pub(crate) fn exact_at(
        &self,
        m: u64,
        eid: &Eid,
        name: u32,
        reads: &mut Reads,
    ) -> Option<&Mapping>
        requires { reads.old < 2 ^ 63 }
        ensures found { option_copied result ≡ exact (lasting m self.now.mappings) eid.now }
        ensures counted { reads.old ≤ reads.new }
        ensures bound { reads.new ≤ reads.old + most_nodes }
    {
        self.by_eid.exact_at(m, eid, name, reads)
    }

    /// The least address above `after` that a mapping names which hasn't ended at a moment, and the
    /// least EID of the mappings that name it, or None.
    pub(crate) fn next_named(&self, m: u64, after: Option<&Addr>) -> Option<(Addr, Eid)>
        ensures { result ≡ least_named
            (named_above (option_copied after.entry) (lasting m self.now.mappings)) }
    {
        if self.names.is_begun() {
            return self.names.least(m, after, &self.by_eid);
        }
        self.passed(m, after)
    }

    // The same, by a pass over all mappings.
    fn passed(&self, m: u64, after: Option<&Addr>) -> Option<(Addr, Eid)>
        ensures { result ≡ least_named
            (named_above (option_copied after.entry) (lasting m self.now.mappings)) }
    {
        let mut best = None;
        for mapping in self.iter() {
            if lasts(m, mapping) {
                best = lesser_of(
                    best,
                    after,
                    &mapping.eid,
                    mapping.details.locators.as_slice(),
                );
            }
        }
        best
    }
}
