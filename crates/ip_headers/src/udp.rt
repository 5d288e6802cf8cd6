// The UDP header of a packet.
ghost use Rattle.std.specs.Prelude.{◌≡◌, ◌+◌, ◌≤◌, length, Ok};
ghost use Rattle.octets.specs.Refusals.{refusal_of};
ghost use Rattle.octets.specs.Rules.{first_failing};
ghost use Rattle.ip_headers.specs.Udp.{packet_sum, payload_in, udp_checksum_rules, udp_read};

use crate::sums::{pseudo_sum, sum_from};
use crate::{IpPacket, Layer, Refused, UdpHeader, Why};
use octets::big_16;

/// The UDP header directly after the IP header. Octets behind the length that it names are padding.
/// Whether the packet's protocol is UDP, the caller tests first.
pub fn read_udp(packet: &IpPacket) -> Result<UdpHeader, Refused>
    ensures { result ≡ udp_read packet.now }
{
    let octets = packet.octets;
    let at = packet.payload_at as usize;
    if octets.len() < at + 8 {
        return Err(refused(packet, packet.payload_at, Why::Short));
    }
    let length = big_16(octets, at + 4);
    if length < 8 || at + usize::from(length) > octets.len() {
        return Err(refused(packet, packet.payload_at + 4, Why::UdpLength));
    }
    Ok(UdpHeader {
        source: big_16(octets, at),
        dest: big_16(octets, at + 2),
        length,
        checksum: big_16(octets, at + 6),
        at: packet.payload_at,
    })
}

fn refused(packet: &IpPacket, at: u32, why: Why) -> Refused
    requires { at ≤ length packet.now.octets.now }
    ensures { result ≡ record { layer = Layer.Udp; place = packet.now.base + at; why = why } }
{
    Refused {
        layer: Layer::Udp,
        place: packet.base + at,
        why,
    }
}

/// Whether the checksum is right over pseudo-header and datagram. A checksum of 0 stands for none,
/// and passes only where `zero_allowed`.
pub fn check_udp(packet: &IpPacket, udp: &UdpHeader, zero_allowed: bool) -> Result<(), Refused>
    requires { udp_read packet.now ≡ Ok udp.now }
    ensures { let rules = udp_checksum_rules packet.now udp.now zero_allowed in
        refusal_of result ≡ first_failing rules }
{
    let passes = if udp.checksum == 0 {
        zero_allowed
    } else {
        packet_sum(packet, udp) == 0xffff
    };
    if passes {
        Ok(())
    } else {
        Err(refused(packet, udp.at + 6, Why::UdpChecksum))
    }
}

fn packet_sum(packet: &IpPacket, udp: &UdpHeader) -> u16
    requires { udp_read packet.now ≡ Ok udp.now }
    ensures { result ≡ packet_sum packet.now udp.now }
{
    let start = udp.at as usize;
    let datagram = &packet.octets[start..start + usize::from(udp.length)];
    sum_from(
        pseudo_sum(packet.header.source(), packet.header.dest(), udp.length),
        datagram,
    )
}

/// The octets after the UDP header, as many as its length names.
pub fn udp_payload<'a>(packet: &IpPacket<'a>, udp: &UdpHeader) -> &'a [u8]
    requires { udp_read packet.now ≡ Ok udp.now }
    ensures { result.now ≡ payload_in packet.now.octets.now udp.now }
{
    let start = udp.at as usize;
    &packet.octets[start + 8..start + usize::from(udp.length)]
}
