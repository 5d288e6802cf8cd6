// Refusals, and addresses behind their AFI.
ghost use Rattle.std.specs.Prelude.{◌≡◌, ◌≤◌, ◌+◌, length};
ghost use Rattle.octets.specs.declared.refused.Layer.TheVariants.{Message};
ghost use Rattle.mapping_records.specs.Address.{addr_at, addr_size, has_addr};

use ip_headers::Addr;
use octets::{Layer, Refused, Why, big_32, big_128};

/// A refusal at a place of a control message.
pub fn refused(place: u32, why: Why) -> Refused
    ensures { result ≡ record { layer = Message; place = place; why = why } }
{
    Refused {
        layer: Layer::Message,
        place,
        why,
    }
}

/// Whether an address follows the AFI: IPv4 or IPv6.
pub fn has_addr(afi: u16) -> bool
    ensures { result ≡ has_addr afi }
{
    afi == 1 || afi == 2
}

/// The octets of an address of that AFI.
pub fn addr_size(afi: u16) -> usize
    ensures { result ≡ addr_size afi }
{
    if afi == 1 { 4 } else { 16 }
}

/// The address of that AFI at a place.
pub fn addr_at(afi: u16, octets: &[u8], at: usize) -> Addr
    requires { at + addr_size afi ≤ length octets.now }
    ensures { result ≡ addr_at afi octets.now at }
{
    if afi == 1 {
        Addr::V4(big_32(octets, at))
    } else {
        Addr::V6(big_128(octets, at))
    }
}
