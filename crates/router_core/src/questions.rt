// The questions that decisions and notices put to a table.
ghost use Rattle.std.specs.Prelude.{◌≡◌, IfSome, max, option_map};
ghost use Rattle.std.specs.Option.{option_copied};
ghost use Rattle.map_cache.specs.Cache.{mapping_named};
ghost use Rattle.map_cache.specs.Lists.{IsFew};
ghost use Rattle.router_model.specs.Cache.{held_of};
ghost use Rattle.router_model.specs.Mappings.{exact, force};
ghost use Rattle.router_model.specs.Parts.{view_in};
ghost use Rattle.router_core.specs.Bounded.{IsShortOut, IsVersioned};

use crate::Table;
use ip_headers::Addr;
use map_cache::Mapping;
use mapping_records::Eid;
use node_store::Reads;
use router_log::EchoOut;

impl Table {
    /// The moment as of which a question at m is answered: m, or that of the last entry, if later.
    pub(crate) fn moment_at(&self, m: u64) -> u64
        ensures { result ≡ max m self.now.parts.now }
    {
        m.max(self.cache.now())
    }

    /// Whether neither probes nor echoes count against a locator.
    #[tactic(auto, unfolding(router_model::specs::Parts::view_in))]
    pub(crate) fn is_up(&self, m: u64, rloc: &Addr) -> bool
        ensures { result ≡ (view_in self.now.parts m).up rloc.now }
    {
        self.locators.up(self.moment_at(m), rloc)
    }

    /// How the header of a packet to a locator deals with echoes.
    #[tactic(auto, unfolding(router_model::specs::Parts::view_in))]
    pub(crate) fn echo_out(&self, m: u64, rloc: &Addr) -> EchoOut
        ensures out { result ≡ (view_in self.now.parts m).echo_out rloc.now }
        ensures short { IsShortOut result }
    {
        self.locators.echo_out(self.moment_at(m), rloc)
    }

    /// Whether an echo may be requested of a locator.
    #[tactic(auto, unfolding(router_model::specs::Parts::view_in))]
    pub(crate) fn may_start(&self, m: u64, rloc: &Addr) -> bool
        ensures { result ≡ (view_in self.now.parts m).may_start rloc.now }
    {
        self.locators.may_start(self.moment_at(m), rloc)
    }

    /// The mapping in force for an EID, or None.
    pub(crate) fn in_force(&self, m: u64, eid: &Eid) -> Option<&Mapping>
        ensures found { option_map held_of (option_copied result)
            ≡ force (view_in self.now.parts m).mappings eid.now.iid eid.now.prefix.addr
            eid.now.prefix.len }
        ensures few { IfSome (option_copied result) IsFew }
        ensures version { IfSome (option_copied result) IsVersioned }
    {
        match self.in_force_named(m, eid) {
            None => None,
            Some((_, mapping)) => Some(mapping),
        }
    }

    /// The mapping in force for an EID, with the name under which it is kept, or None.
    pub(crate) fn in_force_named(&self, m: u64, eid: &Eid) -> Option<(u32, &Mapping)>
        ensures found { option_map held_of (mapping_named result)
            ≡ force (view_in self.now.parts m).mappings eid.now.iid eid.now.prefix.addr
            eid.now.prefix.len }
        ensures few { IfSome (mapping_named result) IsFew }
        ensures version { IfSome (mapping_named result) IsVersioned }
    {
        self.cache
            .in_force_named(self.moment_at(m), eid, &mut Reads::new())
    }

    /// The live mapping of exactly that EID, or None.
    pub(crate) fn exact(&self, m: u64, eid: &Eid) -> Option<&Mapping>
        ensures { option_map held_of (option_copied result)
            ≡ exact (view_in self.now.parts m).mappings eid.now }
    {
        self.cache.exact(self.moment_at(m), eid, &mut Reads::new())
    }

    /// The live mapping of exactly that EID, or None. It is looked up only where `found` isn't the
    /// name under which it is kept.
    pub(crate) fn exact_at(&self, m: u64, eid: &Eid, found: Option<u32>) -> Option<&Mapping>
        ensures { option_map held_of (option_copied result)
            ≡ exact (view_in self.now.parts m).mappings eid.now }
    {
        match found {
            None => self.exact(m, eid),
            Some(name) => {
                self.cache
                    .exact_at(self.moment_at(m), eid, name, &mut Reads::new())
            }
        }
    }
}
