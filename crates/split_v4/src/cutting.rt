// Where a packet is cut in two.
ghost use Rattle.std.specs.Prelude.{◌≡◌};
ghost use Rattle.split_v4.specs.Halves.{cut_above};

use crate::MOST_OFFSET;
use crate::options::{copied_len, padding};
use ip_headers::{IpHeader, IpPacket};

/// Where a packet is cut in two.
#[derive(Clone, Copy, Debug)]
pub(crate) struct Cut {
    /// The octets of the packet's header.
    pub header_len: usize,
    /// The octets of the copied options, with the zeros behind them.
    pub copied_len: usize,
    /// Half of the payload, in units of eight octets, rounded up.
    pub eighths: u16,
}

/// Where a packet of more than `most` octets is cut, or none where it may not be.
pub(crate) fn cut_of(most: usize, packet: &IpPacket) -> Option<Cut>
    ensures { result ≡ cut_above most packet.now.octets.now }
{
    let octets = packet.octets;
    if octets.len() <= most {
        return None;
    }
    let IpHeader::V4(header) = packet.header else {
        return None;
    };
    if header.dont_fragment {
        return None;
    }
    let header_len = usize::from(header.header_len);
    let eighths = ((octets.len() - header_len + 15) / 16) as u16;
    if header.offset + eighths > MOST_OFFSET {
        return None;
    }
    let copied = copied_len(&octets[20..header_len])?;
    Some(Cut {
        header_len,
        copied_len: copied + padding(copied),
        eighths,
    })
}
