// The flow of a packet.
ghost use Rattle.std.specs.Prelude.{◌≡◌};
ghost use Rattle.ip_headers.specs.Tuple.{five_tuple_of, has_ports};

use crate::{FiveTuple, IpPacket, UDP};
use octets::big_16;

/// The protocol number of TCP.
const TCP: u8 = 6;

/// The five numbers by which packets of one flow are known.
pub fn five_tuple(packet: &IpPacket) -> FiveTuple
    ensures { result ≡ five_tuple_of packet.now.header packet.now.octets.now }
{
    let at = packet.payload_at as usize;
    let (source_port, dest_port) = if has_ports(packet) {
        (big_16(packet.octets, at), big_16(packet.octets, at + 2))
    } else {
        (0, 0)
    };
    FiveTuple {
        source: packet.header.source(),
        dest: packet.header.dest(),
        protocol: packet.header.protocol(),
        source_port,
        dest_port,
    }
}

fn has_ports(packet: &IpPacket) -> bool
    ensures { result ≡ has_ports packet.now.header packet.now.octets.now }
{
    let protocol = packet.header.protocol();
    let carries_ports = protocol == TCP || protocol == UDP;
    carries_ports
        && !packet.header.is_fragment()
        && packet.octets.len() >= packet.payload_at as usize + 4
}
