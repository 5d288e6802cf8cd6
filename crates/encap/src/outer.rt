// The headers in front of a packet in its tunnel.
ghost use Rattle.std.specs.Prelude.{◌≡◌, ◌≤◌, ◌+◌, ◌++◌, length, drop};
ghost use Rattle.ip_headers.specs.Addr.{width};
ghost use Rattle.ip_headers.specs.Ip.{ttl_of};
ghost use Rattle.ip_headers.specs.Udp.{udp_octets};
ghost use Rattle.lisp_header.specs.declared.header.TheConstants.{LISP_DATA_PORT};
ghost use Rattle.encap.specs.Limits.{most_tunnel_octets};
ghost use Rattle.encap.specs.Rules.{outer_len};
ghost use Rattle.encap.specs.Wrapped.{outer_header, outer_v4, outer_v6};

use ip_headers::{Addr, IpPacket, UDP, V4Header, V6Header, canonical_v4, canonical_v6};
use lisp_header::LISP_DATA_PORT;

/// The octets of outer IP header, UDP header and LISP header.
pub(crate) fn outer_len(from: Addr) -> usize
    ensures { result ≡ outer_len from }
{
    match from {
        Addr::V4(_) => 36,
        Addr::V6(_) => 56,
    }
}

/// Writes the outer IP header, whose TTL is that of the packet less one, before the place `end`.
/// Returns its place.
pub(crate) fn write_outer(
    inner: &IpPacket,
    from: Addr,
    to: Addr,
    front: &mut [u8],
    end: usize,
) -> usize
    requires family { width from ≡ width to }
    requires ttl { 1 ≤ ttl_of inner.now.header }
    requires size { outer_len from + length inner.now.octets.now ≤ most_tunnel_octets }
    requires room { (40 ≤ end) × (end ≤ length front.old) }
    ensures place { result + outer_len from ≡ end + 16 }
    ensures written { drop result front.new
        ≡ outer_header inner.now.octets.now from to ++ drop end front.old }
{
    match (from, to) {
        (Addr::V4(source), Addr::V4(dest)) => {
            write_octets(&canonical_v4(&outer_v4(inner, source, dest)), front, end)
        }
        (Addr::V6(source), Addr::V6(dest)) => {
            write_octets(&canonical_v6(&outer_v6(inner, source, dest)), front, end)
        }
        _ => unreachable!(),
    }
}

/// Writes octets before the place `end`. Returns the place of the first one.
pub(crate) fn write_octets(octets: &[u8], front: &mut [u8], end: usize) -> usize
    requires { (length octets.now ≤ end) × (end ≤ length front.old) }
    ensures place { result + length octets.now ≡ end }
    ensures written { drop result front.new ≡ octets.now ++ drop end front.old }
{
    let from = end - octets.len();
    front[from..end].copy_from_slice(octets);
    from
}

fn outer_v4(inner: &IpPacket, source: u32, dest: u32) -> V4Header
    requires ttl { 1 ≤ ttl_of inner.now.header }
    requires size { 36 + length inner.now.octets.now ≤ most_tunnel_octets }
    ensures { result ≡ outer_v4 inner.now.octets.now source dest }
{
    V4Header {
        source,
        dest,
        tos: inner.header.class(),
        total: 36 + inner.octets.len() as u16,
        id: 0,
        dont_fragment: true,
        more: false,
        offset: 0,
        ttl: inner.header.ttl() - 1,
        protocol: UDP,
        header_len: 20,
    }
}

fn outer_v6(inner: &IpPacket, source: u128, dest: u128) -> V6Header
    requires ttl { 1 ≤ ttl_of inner.now.header }
    requires size { 56 + length inner.now.octets.now ≤ most_tunnel_octets }
    ensures { result ≡ outer_v6 inner.now.octets.now source dest }
{
    V6Header {
        source,
        dest,
        class: inner.header.class(),
        flow: 0,
        payload: 16 + inner.octets.len() as u16,
        next: UDP,
        hops: inner.header.ttl() - 1,
    }
}

/// The UDP header before `payload` octets of LISP header and packet, without a checksum.
pub(crate) fn udp_header(port: u16, payload: u16) -> [u8; 8]
    requires { payload ≤ 65527 }
    ensures { result ≡ udp_octets port LISP_DATA_PORT (8 + payload) 0 }
{
    let source = port.to_be_bytes();
    let dest = LISP_DATA_PORT.to_be_bytes();
    let length = (8 + payload).to_be_bytes();
    [
        source[0], source[1], dest[0], dest[1], length[0], length[1], 0, 0,
    ]
}
