// A packet one hop further.
ghost use Rattle.std.specs.Prelude.{◌≡◌, ◌≢◌, ◌≤◌, ◌++◌, ℕ, length, take, drop, slice_index, true, None, IfErr, IfOk};
ghost use Rattle.octets.specs.Numbers.{big};
ghost use Rattle.octets.specs.Rules.{first_failing, FailsBy};
ghost use Rattle.ip_headers.specs.Ip.{ip_rules, is_v4, ttl_of};
ghost use Rattle.encap.specs.Forwarded.{forwarded, forwarded_v4, forwarded_v6, lowered, lowered_sum};
ghost use Rattle.encap.specs.Rules.{encap_drop, forward_rules};
ghost use Rattle.encap.specs.declared.fault.EncapDrop.TheVariants.{Memory, TooBig};

use crate::EncapDrop;
use ip_headers::{IpHeader, IpPacket};
use octets::{NoMemory, Octets, big_16};
use std::alloc::Global;

/// The octets of a packet's front that hold everything that forwarding changes: those of an IPv4
/// header up to its checksum.
pub(crate) const FRONT_OCTETS: usize = 12;

/// The packet with its TTL or Hop Limit one less and the checksum of its IPv4 header renewed, for
/// a destination outside the tunnels. All other octets are those of the packet.
pub fn forward_native(alloc: Global, inner: &IpPacket) -> Result<Octets, EncapDrop>
    ensures ok { IfOk result (λ packet. packet ≡ forwarded inner.now.octets.now) }
    ensures refused { let rules = forward_rules inner.now.octets.now in
        FailsBy encap_drop Memory (first_failing rules) result }
    ensures fits { IfErr result (λ drop. drop ≢ TooBig) }
    ensures size { IfOk result (λ packet. length packet ≡ length inner.now.octets.now) }
{
    if inner.header.ttl() <= 1 {
        return Err(EncapDrop::TtlExpired);
    }
    Ok(forwarded(alloc, inner)?)
}

fn forwarded(alloc: Global, inner: &IpPacket) -> Result<Octets, NoMemory>
    requires { 1 ≤ ttl_of inner.now.header }
    ensures { IfOk result (λ packet. packet ≡ forwarded inner.now.octets.now) }
{
    let mut packet = Octets::with_capacity(alloc, inner.octets.len())?;
    let (_, rest) = inner.octets.split_at(FRONT_OCTETS);
    packet.append_both(&forwarded_front(inner), rest)?;
    Ok(packet)
}

/// The first octets of the packet with its TTL one less. The octets behind them stay.
pub(crate) fn forwarded_front(inner: &IpPacket) -> [u8; FRONT_OCTETS]
    requires { 1 ≤ ttl_of inner.now.header }
    ensures { result ++ drop 12 inner.now.octets.now ≡ forwarded inner.now.octets.now }
{
    match inner.header {
        IpHeader::V4(_) => front_v4(inner.octets),
        IpHeader::V6(_) => front_v6(inner.octets),
    }
}

fn front_v4(octets: &[u8]) -> [u8; FRONT_OCTETS]
    requires version { is_v4 octets.now ≡ true }
    requires long { 20 ≤ length octets.now }
    requires ttl { 1 ≤ slice_index octets.now 8 }
    ensures { (base : ℕ) → first_failing (ip_rules base octets.now) ≡ None
        → result ++ drop 12 octets.now ≡ forwarded_v4 octets.now }
{
    lowered_front(octets)
}

fn lowered_front(octets: &[u8]) -> [u8; FRONT_OCTETS]
    requires long { 20 ≤ length octets.now }
    requires ttl { 1 ≤ slice_index octets.now 8 }
    ensures { let sum = lowered_sum (big 2 octets.now 10) in
        result ++ drop 12 octets.now ≡ lowered octets.now sum }
{
    let mut front = first_octets(octets);
    let sum = lowered_sum(big_16(octets, 10)).to_be_bytes();
    front[8] -= 1;
    front[10] = sum[0];
    front[11] = sum[1];
    front
}

fn front_v6(octets: &[u8]) -> [u8; FRONT_OCTETS]
    requires long { 40 ≤ length octets.now }
    requires hops { 1 ≤ slice_index octets.now 7 }
    ensures { result ++ drop 12 octets.now ≡ forwarded_v6 octets.now }
{
    let mut front = first_octets(octets);
    front[7] -= 1;
    front
}

fn first_octets(octets: &[u8]) -> [u8; FRONT_OCTETS]
    requires { 12 ≤ length octets.now }
    ensures { result ≡ take 12 octets.now }
{
    let mut front = [0; FRONT_OCTETS];
    front.copy_from_slice(&octets[..FRONT_OCTETS]);
    front
}

// The checksum of a header whose TTL is one less, computed from the checksum before (RFC 1624).
fn lowered_sum(sum: u16) -> u16
    ensures { result ≡ lowered_sum sum }
{
    if sum < 0xfeff {
        sum + 0x100
    } else {
        sum - 0xfeff
    }
}
