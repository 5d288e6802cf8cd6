// Status bits (RFC 9300, section 10).
ghost use Rattle.std.specs.Prelude.{◌≡◌, ◌≤◌};
ghost use Rattle.map_cache.specs.Cache.{lowest_from, with_bits};

use crate::Mapping;

/// Replaces the lowest `width` status bits of a mapping, which are known then.
pub(crate) fn tell(bits: u32, width: u8, mapping: &mut Mapping)
    requires { width ≤ 32 }
    ensures { mapping.new ≡ with_bits bits width mapping.old }
{
    mapping.known = lowest_from(width, mapping.known, (1 << width) - 1);
    mapping.bits = lowest_from(width, mapping.bits, u64::from(bits));
}

// A number whose lowest `width` bits are those of another.
fn lowest_from(width: u8, old: u32, new: u64) -> u32
    requires { width ≤ 32 }
    ensures { result ≡ lowest_from width old new }
{
    let high = u64::from(old) >> width << width;
    let low = new % (1 << width);
    (high + low) as u32
}
