// Which mappings last, and which addresses are above another.
ghost use Rattle.std.specs.Prelude.{◌≡◌, ◌&&◌};
ghost use Rattle.std.specs.Option.{option_copied};
ghost use Rattle.mapping_records.specs.Eids.{same_eid};
ghost use Rattle.map_cache.specs.Cache.{lasts};
ghost use Rattle.map_cache.specs.Indexed.{is_learned};
ghost use Rattle.map_cache.specs.Named.{comes_after};

use crate::Mapping;
use ip_headers::{Addr, is_below};
use mapping_records::Eid;

/// Whether a mapping hasn't ended at a moment.
pub fn lasts(now: u64, mapping: &Mapping) -> bool
    ensures { result ≡ lasts now mapping.now }
{
    mapping.fixed || u128::from(now) < mapping.end
}

/// Whether a mapping is that of exactly this EID, and hasn't ended at a moment.
pub(crate) fn is_live(now: u64, eid: &Eid, mapping: &Mapping) -> bool
    ensures { result ≡ (same_eid mapping.now.eid eid.now && lasts now mapping.now) }
{
    mapping.eid == *eid && lasts(now, mapping)
}

/// Whether a mapping hasn't ended at a moment, is of an instance, and isn't fixed.
pub(crate) fn lasts_in(now: u64, iid: u32, mapping: &Mapping) -> bool
    ensures { result ≡ (lasts now mapping.now && is_learned iid mapping.now) }
{
    lasts(now, mapping) && mapping.eid.iid == iid && !mapping.fixed
}

/// Whether an address is above `after`; without `after`, each is.
pub(crate) fn comes_after(after: Option<&Addr>, addr: &Addr) -> bool
    ensures { result ≡ comes_after (option_copied after.entry) addr.now }
{
    match after {
        None => true,
        Some(after) => is_below(after, addr),
    }
}
