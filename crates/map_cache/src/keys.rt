// The keys by which mappings stand in order of their ends, and their names in order of addresses.
ghost use Rattle.std.specs.Prelude.{◌≡◌};
ghost use Rattle.map_cache.specs.Indexed.{ending_order, name_order};

use ip_headers::Addr;
use mapping_records::Eid;
use ordered_set::Ordered;
use std::cmp::Ordering;

/// The end of a mapping: its moment, in nanoseconds, and the mapping's EID.
#[derive(Clone, Copy, Debug, PartialEq, Eq, Drop)]
pub(crate) struct Ending {
    pub end: u128,
    pub eid: Eid,
}

impl Ordered for Ending {
    ghost use Rattle.map_cache.specs.Indexed.{ending_order, ending_order-total};

    ghost order = { ending_order };

    ghost is_total = { ending_order-total };

    fn compare(&self, other: &Self) -> Ordering {
        let by_end = self.end.cmp(&other.end);
        by_end.then_with(|| self.eid.cmp(&other.eid))
    }
}

/// An address that the mapping of an EID names.
#[derive(Clone, Copy, Debug, PartialEq, Eq, Drop)]
pub(crate) struct Name {
    pub addr: Addr,
    pub eid: Eid,
}

impl Ordered for Name {
    ghost use Rattle.map_cache.specs.Indexed.{name_order, name_order-total};

    ghost order = { name_order };

    ghost is_total = { name_order-total };

    fn compare(&self, other: &Self) -> Ordering {
        let by_addr = self.addr.cmp(&other.addr);
        by_addr.then_with(|| self.eid.cmp(&other.eid))
    }
}
