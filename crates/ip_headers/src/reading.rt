// Reading a packet.
ghost use Rattle.std.specs.Prelude.{◌≡◌, ◌<◌, ◌+◌, ◌^◌, length, IfOk, None};
ghost use Rattle.octets.specs.Refusals.{refusal_of};
ghost use Rattle.octets.specs.Rules.{first_failing};
ghost use Rattle.ip_headers.specs.Ip.{ip_rules, version};
ghost use Rattle.ip_headers.specs.Packet.{IsPacketOf};

use crate::rules::{first_refusal, v4_at, v6_at};
use crate::{IpHeader, IpPacket, Refused};

/// The packet at the front of the octets. Octets behind it are padding.
pub fn read_ip<'a>(octets: &'a [u8], base: u32) -> Result<IpPacket<'a>, Refused>
    requires { base + length octets.now < 2 ^ 32 }
    ensures rules { refusal_of result ≡ first_failing (ip_rules base octets.now) }
    ensures packet { IfOk result (IsPacketOf octets.now base) }
{
    if let Some(refused) = first_refusal(octets, base) {
        return Err(refused);
    }
    if octets[0] / 16 == 4 {
        Ok(v4_packet(octets, base))
    } else {
        Ok(v6_packet(octets, base))
    }
}

fn v4_packet<'a>(octets: &'a [u8], base: u32) -> IpPacket<'a>
    requires room { base + length octets.now < 2 ^ 32 }
    requires rules { first_failing (ip_rules base octets.now) ≡ None }
    requires version { version octets.now ≡ 4 }
    ensures { IsPacketOf octets.now base result }
{
    let header = v4_at(octets);
    IpPacket {
        header: IpHeader::V4(header),
        octets: &octets[..wide(header.total)],
        base,
        payload_at: u32::from(header.header_len),
    }
}

fn v6_packet<'a>(octets: &'a [u8], base: u32) -> IpPacket<'a>
    requires room { base + length octets.now < 2 ^ 32 }
    requires rules { first_failing (ip_rules base octets.now) ≡ None }
    requires version { version octets.now ≡ 6 }
    ensures { IsPacketOf octets.now base result }
{
    let header = v6_at(octets);
    IpPacket {
        header: IpHeader::V6(header),
        octets: &octets[..wide(header.payload) + 40],
        base,
        payload_at: 40,
    }
}

// A number of 16 bits as a size.
fn wide(number: u16) -> usize
    ensures value { result ≡ number }
    ensures short { result < 65536 }
{
    usize::from(number)
}
