// The packet in a frame.
ghost use Rattle.std.specs.Prelude.{◌≡◌, ◌+◌, ◌≤◌, [], ◌∷◌, length, drop, IfOk};
ghost use Rattle.octets.specs.Refusals.{refusal_of};
ghost use Rattle.octets.specs.Rules.{first_failing};
ghost use Rattle.octets.specs.Numbers.{big};
ghost use Rattle.octets.specs.declared.refused.Why.TheVariants.{EtherType};
ghost use Rattle.capture_io.specs.Link.{link_rules, link_vlan, link_octets, ethernet_rules, ethernet_vlan, ethernet_octets, is_ip_type, refused};

use crate::{Frame, Link};
use octets::{Layer, Refused, Why, big_16};

// The types of a VLAN tag, IPv4 and IPv6 in an Ethernet frame (IEEE 802.3, 802.1Q).
const TAGGED: u16 = 0x8100;

const IP_V4: u16 = 0x0800;

const IP_V6: u16 = 0x86dd;

/// The VLAN of a frame, 0 where it has none, and the IP packet behind the link header, with any
/// padding behind it; or the first rule that the frame breaks. Places count from the frame's start.
pub fn link_payload(frame: &Frame) -> Result<(u16, &[u8]), Refused>
    ensures refused { refusal_of result ≡ first_failing (link_rules frame.now) }
    ensures vlan { IfOk result (λ payload. payload.0 ≡ link_vlan frame.now) }
    ensures octets { IfOk result (λ payload. payload.1.now ≡ link_octets frame.now) }
{
    let octets = frame.octets.as_slice();
    match frame.link {
        Link::Ethernet => ethernet_payload(octets),
        Link::Raw => Ok((0, octets)),
    }
}

fn ethernet_payload(octets: &[u8]) -> Result<(u16, &[u8]), Refused>
    ensures refused { refusal_of result ≡ first_failing (ethernet_rules octets.now) }
    ensures vlan { IfOk result (λ payload. payload.0 ≡ ethernet_vlan octets.now) }
    ensures octets { IfOk result (λ payload. payload.1.now ≡ ethernet_octets octets.now) }
{
    if octets.len() < 14 {
        return Err(refused(0, Why::Short));
    }
    if big_16(octets, 12) != TAGGED {
        return Ok((0, typed_payload(octets, 12)?));
    }
    if octets.len() < 18 {
        return Err(refused(14, Why::Short));
    }
    let vlan = big_16(octets, 14) % 4096;
    Ok((vlan, typed_payload(octets, 16)?))
}

// The octets behind the type at a place, or a refusal where the type is neither IPv4's nor IPv6's.
fn typed_payload(octets: &[u8], at: u32) -> Result<&[u8], Refused>
    requires { at + 2 ≤ length octets.now }
    ensures refused { refusal_of result ≡
        first_failing ((is_ip_type (big 2 octets.now at), refused at EtherType) ∷ []) }
    ensures octets { IfOk result (λ payload. payload.now ≡ drop (at + 2) octets.now) }
{
    let start = at as usize;
    match big_16(octets, start) {
        IP_V4 | IP_V6 => Ok(&octets[start + 2..]),
        _ => Err(refused(at, Why::EtherType)),
    }
}

fn refused(place: u32, why: Why) -> Refused
    ensures { result ≡ refused place why }
{
    Refused {
        layer: Layer::Link,
        place,
        why,
    }
}
