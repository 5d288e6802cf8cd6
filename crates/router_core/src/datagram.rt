// A UDP datagram in its packet.
ghost use Rattle.std.specs.Prelude.{◌≡◌, Ok};
ghost use Rattle.ip_headers.specs.Udp.{udp_read};

use ip_headers::{IpPacket, UdpHeader};

/// A packet with a UDP datagram, and the datagram's header.
#[derive(Clone, Copy, Debug)]
pub struct Datagram<'a> {
    pub packet: IpPacket<'a>,
    pub udp: UdpHeader,
    ghost read: { udp_read packet ≡ Ok udp },
}
