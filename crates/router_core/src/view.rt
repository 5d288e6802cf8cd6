// The view of a table at a moment, for decisions.
ghost use Rattle.router_core.specs.Site.{IsSite};
ghost use Rattle.std.specs.Prelude.{◌≡◌, ◌&&◌, IfSome, option_map};
ghost use Rattle.std.specs.Option.{option_copied};
ghost use Rattle.lisp_settings.specs.Home.{home_of};
ghost use Rattle.map_cache.specs.Cache.{mapping_named};
ghost use Rattle.map_cache.specs.Lists.{IsFew};
ghost use Rattle.router_model.specs.Cache.{held_of};
ghost use Rattle.router_model.specs.Mappings.{force};
ghost use Rattle.router_core.specs.Bounded.{IsShortOut, IsVersioned};
ghost use Rattle.router_core.specs.Table.{seen};

use crate::Table;
use crate::site::Site;
use ip_headers::Addr;
use lisp_settings::Database;
use map_cache::Mapping;
use mapping_records::Eid;
use router_log::EchoOut;
use std::alloc::Global;
use std::marker::Model;

/// The view of a table at a moment, with the site as it stands. A moment earlier than the last
/// entry's counts as the last entry's.
#[derive(Drop)]
pub(crate) struct View<'t> {
    pub(crate) table: &'t Table,
    pub(crate) site: &'t Site<'t>,
    m: u64,
}

impl<'t> Model for View<'t> {
    ghost use Rattle.router_core.specs.Table.{Viewed};

    ghost Value = { Viewed };

    ghost view = { λ view. record {
      site = view.site.now;
      parts = view.table.now.parts;
      m = view.m;
    } };
}

impl<'t> View<'t> {
    /// The view of a table at moment m, with the site as it stands.
    pub(crate) fn of(table: &'t Table, site: &'t Site<'t>, m: u64) -> View<'t>
        ensures { result ≡ record { site = site.now; parts = table.now.parts; m = m } }
    {
        View { table, site, m }
    }

    /// The allocator that lists are made with.
    pub(crate) fn alloc(&self) -> Global {
        let table = self.table;
        table.alloc
    }

    /// Whether neither probes nor echoes count against a locator.
    pub(crate) fn is_up(&self, rloc: &Addr) -> bool
        ensures { result ≡ (seen self.now).up rloc.now }
    {
        self.table.is_up(self.m, rloc)
    }

    /// How the header of a packet to a locator deals with echoes.
    pub(crate) fn echo_out(&self, rloc: &Addr) -> EchoOut
        ensures out { result ≡ (seen self.now).echo_out rloc.now }
        ensures short { IsShortOut result }
    {
        self.table.echo_out(self.m, rloc)
    }

    /// Whether an echo is to be requested of a locator: the setting `echo` is on, and it may be.
    pub(crate) fn is_echo_due(&self, rloc: &Addr) -> bool
        ensures { result ≡ (self.now.site.echo && (seen self.now).may_start rloc.now) }
    {
        self.table.is_echo_due(self.site, self.m, rloc)
    }

    /// The longest prefix of the site in an instance that covers an address, with its version as it
    /// stands, or None.
    pub(crate) fn home(&self, iid: u32, address: &Addr) -> Option<Database>
        requires { IsSite self.now.site }
        ensures { result ≡ home_of self.now.site.databases iid address.now }
    {
        self.site.home(iid, address)
    }

    /// The mapping in force for an EID, or None.
    pub(crate) fn in_force(&self, eid: &Eid) -> Option<&'t Mapping>
        ensures found { option_map held_of (option_copied result)
            ≡ force (seen self.now).mappings eid.now.iid eid.now.prefix.addr eid.now.prefix.len }
        ensures few { IfSome (option_copied result) IsFew }
        ensures version { IfSome (option_copied result) IsVersioned }
    {
        self.table.in_force(self.m, eid)
    }

    /// The mapping in force for an EID, with the name under which it is kept, or None.
    pub(crate) fn in_force_named(&self, eid: &Eid) -> Option<(u32, &'t Mapping)>
        ensures { option_map held_of (mapping_named result)
            ≡ force (seen self.now).mappings eid.now.iid eid.now.prefix.addr eid.now.prefix.len }
    {
        self.table.in_force_named(self.m, eid)
    }
}
