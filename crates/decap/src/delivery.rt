// A packet as it leaves its tunnel.
ghost use Rattle.std.specs.Prelude.{◌≡◌, ◌≤◌, length, IfOk, true, false};
ghost use Rattle.octets.specs.Rules.{first_failing, FailsBy};
ghost use Rattle.ip_headers.specs.Ip.{header_len, is_v4};
ghost use Rattle.decap.specs.Delivered.{decap_drop, deliver_rules, delivered, marked, v4_marked, v6_marked};
ghost use Rattle.decap.specs.declared.fault.DecapDrop.TheVariants.{Memory};

use crate::ecn::ecn_of;
use crate::{DecapDrop, Tunnelled};
use ip_headers::{IpHeader, IpPacket, checksum};
use octets::{NoMemory, Octets};
use std::alloc::Global;

/// The packet inside, as it goes on: its TTL or Hop Limit is the lesser of both less one, its DSCP
/// is that of the outer header, its ECN that of RFC 6040, and the checksum of an IPv4 header is
/// computed anew. All other octets stay.
pub fn deliver(alloc: Global, tunnel: &Tunnelled) -> Result<Octets, DecapDrop>
    ensures ok { let inner = tunnel.now.inner.octets.now in
        IfOk result (λ packet. packet ≡ delivered inner tunnel.now.outer) }
    ensures refused { let rules = deliver_rules tunnel.now.inner.octets.now tunnel.now.outer in
        FailsBy decap_drop Memory (first_failing rules) result }
    ensures size { IfOk result (λ packet. length packet ≡ length tunnel.now.inner.octets.now) }
{
    let outer = &tunnel.outer;
    let Some(ecn) = ecn_of(tunnel.inner.header.class() % 4, outer.class() % 4) else {
        return Err(DecapDrop::CongestionMark);
    };
    let ttl = tunnel.inner.header.ttl().min(outer.ttl());
    if ttl <= 1 {
        return Err(DecapDrop::TtlExpired);
    }
    let class = outer.class() / 4 * 4 + ecn;
    Ok(marked(alloc, &tunnel.inner, class, ttl - 1)?)
}

fn marked(alloc: Global, inner: &IpPacket, class: u8, ttl: u8) -> Result<Octets, NoMemory>
    ensures { IfOk result (λ packet. packet ≡ marked inner.now.octets.now class ttl) }
{
    let mut packet = Vec::with_capacity(alloc, inner.octets.len())?;
    packet.extend_from_slice(inner.octets)?;
    match inner.header {
        IpHeader::V4(header) => {
            mark_v4(&mut packet, usize::from(header.header_len), class, ttl);
        }
        IpHeader::V6(_) => mark_v6(&mut packet, class, ttl),
    }
    Ok(Octets::from_vec(packet))
}

// Sets TOS and TTL of an IPv4 packet, and computes the checksum of its header anew.
fn mark_v4(packet: &mut [u8], header_end: usize, class: u8, ttl: u8)
    requires header { header_end ≡ header_len packet.old }
    requires least { 20 ≤ header_end }
    requires within { header_end ≤ length packet.old }
    ensures { packet.new ≡ v4_marked packet.old class ttl }
{
    packet[1] = class;
    packet[8] = ttl;
    packet[10] = 0;
    packet[11] = 0;
    let sum = checksum(&packet[..header_end]).to_be_bytes();
    packet[10] = sum[0];
    packet[11] = sum[1];
}

// Sets Traffic Class and Hop Limit of an IPv6 packet. The class ends in the second octet, before
// the flow label.
#[tactic(auto, unfolding(crate::specs::Delivered::v6_marked))]
fn mark_v6(packet: &mut [u8], class: u8, ttl: u8)
    requires { 40 ≤ length packet.old }
    ensures { packet.new ≡ v6_marked packet.old class ttl }
{
    packet[1] = class % 16 * 16 + packet[1] % 16;
    packet[0] = 6 * 16 + class / 16;
    packet[7] = ttl;
}
