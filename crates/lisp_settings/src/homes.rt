// The site's own EID prefixes.
ghost use Rattle.std.specs.Prelude.{◌≡◌, option_map};
ghost use Rattle.lisp_settings.specs.Home.{home_of};

use crate::settings::{Database, Settings};
use ip_headers::Addr;
use mapping_records::{Eid, HasEid, longest};

impl HasEid for Database {
    ghost eid = { λ database. database.eid };

    fn eid(&self) -> &Eid {
        &self.eid
    }
}

/// The longest EID prefix of the site in an instance that covers an address, or None.
pub fn home<'a>(settings: &'a Settings, iid: u32, addr: &Addr) -> Option<&'a Database>
    ensures { option_map (λ database. database.now) result
        ≡ home_of settings.now.databases iid addr.now }
{
    longest(settings.databases.as_slice(), iid, *addr)
}
