// The header of a part of a packet.
ghost use Rattle.std.specs.Prelude.{◌≡◌, ◌≤◌, ◌<◌, All, length};
ghost use Rattle.split_v4.specs.Halves.{front_with, summed, with_more};

use ip_headers::checksum;

/// What a part of a packet has of its own in its header.
#[derive(Clone, Copy, Debug)]
pub(crate) struct Own {
    /// The words of four octets of the header.
    pub words: u8,
    /// The octets of the part.
    pub total: u16,
    /// The flags and the fragment offset.
    pub flags: u16,
}

/// The first 20 octets of a part of a packet, with 0 for the checksum.
pub(crate) fn front_with(packet: &[u8], own: Own) -> [u8; 20]
    requires long { 20 ≤ length packet.now }
    requires words { own.words ≤ 15 }
    ensures { result ≡ front_with packet.now own.words own.total own.flags 0 }
{
    let total = own.total.to_be_bytes();
    let flags = own.flags.to_be_bytes();
    [
        64 + own.words,
        packet[1],
        total[0],
        total[1],
        packet[4],
        packet[5],
        flags[0],
        flags[1],
        packet[8],
        packet[9],
        0,
        0,
        packet[12],
        packet[13],
        packet[14],
        packet[15],
        packet[16],
        packet[17],
        packet[18],
        packet[19],
    ]
}

/// Puts the checksum over a header into it.
#[tactic(auto, unfolding(crate::specs::Halves::summed))]
pub(crate) fn sum_up(header: &mut [u8])
    requires { 20 ≤ length header.old }
    ensures summed { header.new ≡ summed header.old }
{
    let sum = checksum(header).to_be_bytes();
    header[10] = sum[0];
    header[11] = sum[1];
}

/// The flags and the fragment offset with More Fragments set.
pub(crate) fn with_more(flags: u16) -> u16
    ensures { result ≡ with_more flags }
{
    if flags / 8192 % 2 == 1 {
        flags
    } else {
        flags + 8192
    }
}
