// A tunnel packet, opened.
ghost use Rattle.std.specs.Prelude.{◌≡◌, ◌+◌, ◌≤◌, ◌<◌, ◌^◌, length, drop, Ok, IfOk};
ghost use Rattle.octets.specs.Refusals.{fault_of, refusal_of};
ghost use Rattle.octets.specs.Rules.{first_failing};
ghost use Rattle.ip_headers.specs.Ip.{ip_rules};
ghost use Rattle.ip_headers.specs.Packet.{IsPacketOf};
ghost use Rattle.ip_headers.specs.Udp.{udp_read};
ghost use Rattle.decap.specs.Opened.{open_rules, IsOpened};

use crate::OpenDrop;
use ip_headers::{IpHeader, IpPacket, UdpHeader, check_udp, read_ip, udp_payload};
use lisp_header::{LispHeader, read_header};
use octets::Refused;

/// What a tunnel packet carries.
#[derive(Clone, Copy, Debug)]
pub struct Tunnelled<'a> {
    pub header: LispHeader,
    /// The packet inside, without what follows it.
    pub inner: IpPacket<'a>,
    /// The IP header outside.
    pub outer: IpHeader,
}

/// Opens a packet that came to the port of LISP data: its UDP checksum, where it isn't 0, then the
/// LISP header, then the packet inside. The first rule that fails counts.
pub fn open_tunnel<'a>(packet: &IpPacket<'a>, udp: &UdpHeader) -> Result<Tunnelled<'a>, OpenDrop>
    requires { udp_read packet.now ≡ Ok udp.now }
    ensures rules { fault_of result ≡ first_failing (open_rules packet.now udp.now) }
    ensures value { IfOk result (IsOpened packet.now udp.now) }
{
    check_udp(packet, udp, true)?;
    let payload = udp_payload(packet, udp);
    let place = packet.base + udp.at + 8;
    let header = read_header(payload, place)?;
    if header.key != 0 {
        return Err(OpenDrop::Encrypted);
    }
    let inner = inner_packet(payload, place)?;
    Ok(Tunnelled {
        header,
        inner,
        outer: packet.header,
    })
}

// The packet behind the LISP header, whose octets stand at that place of the frame.
fn inner_packet<'a>(octets: &'a [u8], place: u32) -> Result<IpPacket<'a>, Refused>
    requires header { 8 ≤ length octets.now }
    requires room { place + length octets.now < 2 ^ 32 }
    ensures rules { let rest = drop 8 octets.now in
        refusal_of result ≡ first_failing (ip_rules (place + 8) rest) }
    ensures value { IfOk result (IsPacketOf (drop 8 octets.now) (place + 8)) }
{
    read_ip(&octets[8..], place + 8)
}
