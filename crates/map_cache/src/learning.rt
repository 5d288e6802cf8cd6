// A mapping that was just learned.
ghost use Rattle.std.specs.Prelude.{◌≡◌};
ghost use Rattle.map_cache.specs.Cache.{end_of, fresh, lifetime};

use crate::Mapping;
use mapping_records::{DEFAULT_MINUTES, Record};

fn lifetime(ttl: u32) -> u128
    ensures { result ≡ lifetime ttl }
{
    let minutes = if ttl == 0xffff_ffff {
        DEFAULT_MINUTES
    } else {
        ttl
    };
    u128::from(minutes) * 60 * 1_000_000_000
}

fn end_of(moment: u64, mapping: &Record, fixed: bool) -> u128
    ensures { result ≡ end_of moment mapping.now fixed }
{
    if fixed {
        return 0;
    }
    u128::from(moment) + lifetime(mapping.ttl)
}

pub(crate) fn fresh(moment: u64, mapping: Record, fixed: bool) -> Mapping
    ensures { result ≡ fresh moment mapping fixed }
{
    Mapping {
        eid: mapping.eid,
        fixed,
        end: end_of(moment, &mapping, fixed),
        details: mapping,
        known: 0,
        bits: 0,
    }
}
