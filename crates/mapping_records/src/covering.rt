// Which EIDs cover which, and the longest EID of a list that covers an address.
ghost use Rattle.std.specs.Prelude.{◌≡◌, option_map};
ghost use Rattle.ip_headers.specs.Addr.{width};
ghost use Rattle.mapping_records.specs.Eids.{covers_eid, covers_prefix, longer, longest};
ghost use Rattle.mapping_records.specs.declared.eid.Eid.{Eid};

use crate::{Eid, Record};
use ip_headers::{Addr, Prefix};

/// An item with an EID.
pub trait HasEid {
    ghost eid: { Self → Eid };

    fn eid(&self) -> &Eid
        ensures { result.now ≡ eid self.now };
}

impl HasEid for Record {
    ghost eid = { λ mapping. mapping.eid };

    fn eid(&self) -> &Eid {
        &self.eid
    }
}

impl Eid {
    /// Whether both EIDs are of one instance, and the prefix of `self` covers that of `other`. Each
    /// EID covers itself.
    pub fn covers(&self, other: &Eid) -> bool
        ensures { result ≡ covers_eid self.now other.now }
    {
        self.iid == other.iid && self.prefix.covers(&other.prefix)
    }

    fn covers_addr(&self, iid: u32, addr: Addr) -> bool
        ensures { result ≡ covers_prefix self.now iid addr (width addr) }
    {
        self.iid == iid && self.prefix.covers(&Prefix::host(addr))
    }
}

/// The item with the longest EID prefix of that instance that covers the address, or None where
/// none covers it.
pub fn longest<'a, T: HasEid>(items: &'a [T], iid: u32, addr: Addr) -> Option<&'a T>
    ensures { option_map (λ item. item.now) result ≡ longest T.eid items.now iid addr (width addr) }
{
    let mut best = None;
    for item in items {
        if item.eid().covers_addr(iid, addr) {
            best = longer(best, item);
        }
    }
    best
}

fn longer<'a, T: HasEid>(best: Option<&'a T>, next: &'a T) -> Option<&'a T>
    ensures { option_map (λ item. item.now) result
        ≡ longer T.eid (option_map (λ item. item.now) best.entry) next.now }
{
    match best {
        Some(best) if next.eid().prefix.len <= best.eid().prefix.len => Some(best),
        _ => Some(next),
    }
}
