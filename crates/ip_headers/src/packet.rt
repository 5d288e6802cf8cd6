// One packet, with its header.
ghost use Rattle.std.specs.Prelude.{◌≡◌, ◌<◌, ◌≤◌, ◌+◌, ◌^◌, length, None};
ghost use Rattle.octets.specs.Rules.{first_failing};
ghost use Rattle.ip_headers.specs.Ip.{header_at, ip_rules, packet_len, payload_place};

use crate::IpHeader;

/// Exactly the octets of one packet, without padding. They obey each rule, and spell its header and
/// the place of its payload.
#[derive(Clone, Copy, Debug)]
pub struct IpPacket<'a> {
    pub header: IpHeader,
    pub octets: &'a [u8],
    /// The place of the packet in its frame.
    pub base: u32,
    /// Where the payload begins in `octets`.
    pub payload_at: u32,
    ghost lawful: { first_failing (ip_rules base octets.now) ≡ None },
    ghost spells: { header ≡ header_at octets.now },
    ghost exact: { length octets.now ≡ packet_len header },
    ghost place: { payload_at ≡ payload_place header },
    ghost room: { base + length octets.now < 2 ^ 32 },
    ghost short: { length octets.now ≤ 65575 },
}
