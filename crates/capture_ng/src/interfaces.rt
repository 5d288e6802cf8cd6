// The interface in an interface description block.
ghost use Rattle.std.specs.Prelude.{◌≡◌, ◌≤◌, ◌<◌, length, IfSome, Some, None, if◌then◌else◌};
ghost use Rattle.capture_ng.specs.Interfaces.{are_options, interface_in, link_of, option_octets};

use crate::head::Head;
use crate::interface::Interface;
use crate::options::read_options;
use capture_io::Link;

/// The interface in an interface description block, or None where an option doesn't fit or isn't
/// proper.
pub fn read_interface(head: Head, octets: &[u8]) -> Option<Interface>
    requires least { 20 ≤ head.length }
    requires whole { head.length ≤ length octets.now }
    ensures value { result ≡ (if are_options head.order (option_octets head octets.now)
        then Some (interface_in head octets.now) else None) }
    ensures units { IfSome result (λ interface. 0 < interface.clock.units) }
{
    let (_, behind_fields) = octets.split_at(16);
    let (options, _) = behind_fields.split_at(head.length as usize - 20);
    let clock = read_options(head.order, options)?;
    Some(Interface {
        link: link_of(head.order.number_16(octets, 8)),
        snap: head.order.number_32(octets, 12),
        clock,
    })
}

// The link type of a LinkType field, or None where it isn't one of the two that are read.
fn link_of(number: u16) -> Option<Link>
    ensures { result ≡ link_of number }
{
    match number {
        1 => Some(Link::Ethernet),
        101 => Some(Link::Raw),
        _ => None,
    }
}
