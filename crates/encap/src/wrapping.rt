// A packet into its tunnel.
ghost use Rattle.std.specs.Prelude.{◌≡◌, ◌≤◌, ◌+◌, ◌++◌, length, drop, IfOk};
ghost use Rattle.octets.specs.Rules.{first_failing, FailsBy};
ghost use Rattle.ip_headers.specs.Addr.{width};
ghost use Rattle.ip_headers.specs.Ip.{ttl_of};
ghost use Rattle.lisp_header.specs.Header.{InRange};
ghost use Rattle.encap.specs.Limits.{most_tunnel_octets};
ghost use Rattle.encap.specs.Rules.{encap_drop, encap_rules, outer_len};
ghost use Rattle.encap.specs.Wrapped.{wrapped};
ghost use Rattle.encap.specs.declared.fault.EncapDrop.TheVariants.{Memory};

use crate::forwarding::{FRONT_OCTETS, forwarded_front};
use crate::outer::{outer_len, udp_header, write_octets, write_outer};
use crate::{EncapDrop, MOST_TUNNEL_OCTETS};
use ip_headers::{Addr, IpPacket};
use lisp_header::{LispHeader, write_header};
use octets::{NoMemory, Octets};
use std::alloc::Global;

// The octets of outer IP header, UDP header and LISP header, and the first of the packet, at most.
const MOST_FRONT: usize = 40 + 8 + 8 + FRONT_OCTETS;

/// The packet in its tunnel from one locator to another, from UDP port `port`. TTL, DSCP and ECN of
/// the outer header are those with which the packet goes on (RFC 9300, section 5.3; RFC 6040).
pub fn encapsulate(
    alloc: Global,
    inner: &IpPacket,
    from: Addr,
    to: Addr,
    port: u16,
    header: &LispHeader,
) -> Result<Octets, EncapDrop>
    requires family { width from ≡ width to }
    requires range { InRange header.now }
    ensures ok { let packet = wrapped inner.now.octets.now from to port header.now in
        IfOk result (λ sent. sent ≡ packet) }
    ensures refused { let rules = encap_rules inner.now.octets.now from in
        FailsBy encap_drop Memory (first_failing rules) result }
    ensures size { IfOk result (λ packet. length packet ≤ most_tunnel_octets) }
{
    if inner.header.ttl() <= 1 {
        return Err(EncapDrop::TtlExpired);
    }
    if outer_len(from) + inner.octets.len() > MOST_TUNNEL_OCTETS {
        return Err(EncapDrop::TooBig);
    }
    Ok(wrapped(alloc, inner, from, to, port, header)?)
}

fn wrapped(
    alloc: Global,
    inner: &IpPacket,
    from: Addr,
    to: Addr,
    port: u16,
    header: &LispHeader,
) -> Result<Octets, NoMemory>
    requires family { width from ≡ width to }
    requires range { InRange header.now }
    requires ttl { 1 ≤ ttl_of inner.now.header }
    requires size { outer_len from + length inner.now.octets.now ≤ most_tunnel_octets }
    ensures { let packet = wrapped inner.now.octets.now from to port header.now in
        IfOk result (λ sent. sent ≡ packet) }
{
    let size = outer_len(from) + inner.octets.len();
    let mut packet = Octets::with_capacity(alloc, size)?;
    let mut room = [0; MOST_FRONT];
    let place = write_front(inner, from, to, port, header, &mut room);
    let (_, front) = room.split_at(place);
    let (_, rest) = inner.octets.split_at(FRONT_OCTETS);
    packet.append_both(front, rest)?;
    Ok(packet)
}

// Writes the outer headers and the first octets of the packet, so that they end with `front`.
// Returns their place.
fn write_front(
    inner: &IpPacket,
    from: Addr,
    to: Addr,
    port: u16,
    header: &LispHeader,
    front: &mut [u8],
) -> usize
    requires family { width from ≡ width to }
    requires range { InRange header.now }
    requires ttl { 1 ≤ ttl_of inner.now.header }
    requires size { outer_len from + length inner.now.octets.now ≤ most_tunnel_octets }
    requires room { length front.old ≡ 68 }
    ensures place { result ≤ 68 }
    ensures written { drop result front.new ++ drop 12 inner.now.octets.now
        ≡ wrapped inner.now.octets.now from to port header.now }
{
    let size = inner.octets.len() as u16;
    let inner_at = write_octets(&forwarded_front(inner), front, MOST_FRONT);
    let lisp_at = write_octets(&write_header(header), front, inner_at);
    let udp_at = write_octets(&udp_header(port, 8 + size), front, lisp_at);
    write_outer(inner, from, to, front, udp_at)
}
