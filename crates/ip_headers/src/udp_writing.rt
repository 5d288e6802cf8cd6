// UDP datagrams as octets.
ghost use Rattle.std.specs.Prelude.{◌≡◌, ◌≤◌, ◌+◌, ◌++◌, length, OnOk, OnErr};
ghost use Rattle.ip_headers.specs.Addr.{width};
ghost use Rattle.ip_headers.specs.Udp.{canonical_udp, datagram, udp_checksum, udp_octets, udp_sum};

use crate::sums::{pseudo_sum, sum_from};
use crate::{Addr, NoMemory, Octets};

/// Appends a datagram: UDP header and payload. Where not `summed`, its checksum is 0.
pub fn write_udp(
    from: Addr,
    to: Addr,
    source: u16,
    dest: u16,
    payload: &[u8],
    summed: bool,
    out: &mut Octets,
) -> Result<(), NoMemory>
    requires family { width from ≡ width to }
    requires short { length payload.now ≤ 65507 }
    ensures ok { let octets = canonical_udp from to source dest payload.now summed in
        OnOk result (out.new ≡ out.old ++ octets) }
    ensures err { OnErr result (out.new ≡ out.old) }
{
    let sum = if summed {
        udp_checksum(from, to, source, dest, payload)
    } else {
        0
    };
    let length = (8 + payload.len()) as u16;
    out.append_both(&udp_octets(source, dest, length, sum), payload)
}

/// The checksum of a datagram, with 0 written as all ones.
fn udp_checksum(from: Addr, to: Addr, source: u16, dest: u16, payload: &[u8]) -> u16
    requires { length payload.now ≤ 65507 }
    ensures { result ≡ udp_checksum from to source dest payload.now }
{
    let sum = datagram_sum(from, to, source, dest, payload);
    if sum == 0xffff { 0xffff } else { 0xffff - sum }
}

/// The sum over pseudo-header, header and payload of a datagram, with 0 for its checksum.
fn datagram_sum(from: Addr, to: Addr, source: u16, dest: u16, payload: &[u8]) -> u16
    requires { length payload.now ≤ 65507 }
    ensures { result ≡ udp_sum from to (datagram source dest 0 payload.now) }
{
    let length = (8 + payload.len()) as u16;
    let header = udp_octets(source, dest, length, 0);
    let front = sum_from(pseudo_sum(from, to, length), &header);
    sum_from(front, payload)
}

fn udp_octets(source: u16, dest: u16, length: u16, sum: u16) -> [u8; 8]
    ensures { result ≡ udp_octets source dest length sum }
{
    let mut octets = [0; 8];
    octets[..2].copy_from_slice(&source.to_be_bytes());
    octets[2..4].copy_from_slice(&dest.to_be_bytes());
    octets[4..6].copy_from_slice(&length.to_be_bytes());
    octets[6..].copy_from_slice(&sum.to_be_bytes());
    octets
}
