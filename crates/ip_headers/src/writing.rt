// IP headers as octets.
ghost use Rattle.std.specs.Prelude.{◌≡◌, ◌<◌, ◌^◌, ◌++◌, OnOk, OnErr};
ghost use Rattle.ip_headers.specs.Canonical.{canonical_v4, canonical_v6, spelled_v4, v4_flags};

use crate::sums::checksum;
use crate::{NoMemory, Octets, V4Header, V6Header};

/// Appends the 20 octets of an IPv4 header without options, with its checksum.
pub fn write_v4(header: &V4Header, out: &mut Octets) -> Result<(), NoMemory>
    requires plain { header.now.header_len ≡ 20 }
    requires offset { header.now.offset < 2 ^ 13 }
    ensures ok { OnOk result (out.new ≡ out.old ++ canonical_v4 header.now) }
    ensures err { OnErr result (out.new ≡ out.old) }
{
    out.append(&canonical_v4(header))
}

/// The 20 octets of an IPv4 header without options, with its checksum.
pub fn canonical_v4(header: &V4Header) -> [u8; 20]
    requires plain { header.now.header_len ≡ 20 }
    requires offset { header.now.offset < 2 ^ 13 }
    ensures { result ≡ canonical_v4 header.now }
{
    let mut octets = unsummed_v4(header);
    let sum = checksum(&octets);
    octets[10..12].copy_from_slice(&sum.to_be_bytes());
    octets
}

/// The 20 octets of an IPv4 header with 0 for its checksum.
fn unsummed_v4(header: &V4Header) -> [u8; 20]
    requires { header.now.offset < 2 ^ 13 }
    ensures { result ≡ spelled_v4 header.now 0 }
{
    let mut octets = [0; 20];
    octets[0] = 0x45;
    octets[1] = header.tos;
    octets[2..4].copy_from_slice(&header.total.to_be_bytes());
    octets[4..6].copy_from_slice(&header.id.to_be_bytes());
    octets[6..8].copy_from_slice(&v4_flags(header).to_be_bytes());
    octets[8] = header.ttl;
    octets[9] = header.protocol;
    octets[12..16].copy_from_slice(&header.source.to_be_bytes());
    octets[16..].copy_from_slice(&header.dest.to_be_bytes());
    octets
}

fn v4_flags(header: &V4Header) -> u16
    requires offset { header.now.offset < 2 ^ 13 }
    ensures { result ≡ v4_flags header.now }
{
    let dont_fragment = if header.dont_fragment { 16384 } else { 0 };
    let more = if header.more { 8192 } else { 0 };
    dont_fragment + more + header.offset
}

/// Appends the 40 octets of an IPv6 header.
pub fn write_v6(header: &V6Header, out: &mut Octets) -> Result<(), NoMemory>
    requires flow { header.now.flow < 2 ^ 20 }
    ensures ok { OnOk result (out.new ≡ out.old ++ canonical_v6 header.now) }
    ensures err { OnErr result (out.new ≡ out.old) }
{
    out.append(&canonical_v6(header))
}

/// The 40 octets of an IPv6 header.
pub fn canonical_v6(header: &V6Header) -> [u8; 40]
    requires flow { header.now.flow < 2 ^ 20 }
    ensures { result ≡ canonical_v6 header.now }
{
    let first = 0x6000_0000 + u32::from(header.class) * 0x10_0000 + header.flow;
    let mut octets = [0; 40];
    octets[..4].copy_from_slice(&first.to_be_bytes());
    octets[4..6].copy_from_slice(&header.payload.to_be_bytes());
    octets[6] = header.next;
    octets[7] = header.hops;
    octets[8..24].copy_from_slice(&header.source.to_be_bytes());
    octets[24..].copy_from_slice(&header.dest.to_be_bytes());
    octets
}
