// The IP headers of the packets in which control messages are sent.
ghost use Rattle.std.specs.Prelude.{◌≡◌, ◌≤◌, ◌+◌, ◌++◌, OnOk};
ghost use Rattle.ip_headers.specs.Addr.{width};
ghost use Rattle.map_messages.specs.Control.{control_header, control_v4, control_v6};
ghost use Rattle.map_messages.specs.Limits.{most_message_octets};

use crate::{Addr, CONTROL_HOPS, NoMemory, Octets};
use ip_headers::{UDP, V4Header, V6Header, write_v4, write_v6};

/// Appends the IP header of a packet in which this router sends a control message: UDP, of so many
/// octets, from one address to another of its family. Without memory a part of it stays.
#[tactic(auto, unfolding(crate::specs::Control::control_header))]
pub fn write_control_header(
    from: Addr,
    to: Addr,
    size: u16,
    out: &mut Octets,
) -> Result<(), NoMemory>
    requires family { width from ≡ width to }
    requires short { size ≤ 8 + most_message_octets }
    ensures { OnOk result (out.new ≡ out.old ++ control_header from to size) }
{
    match (from, to) {
        (Addr::V4(source), Addr::V4(dest)) => write_v4(&control_v4(source, dest, size), out),
        (Addr::V6(source), Addr::V6(dest)) => write_v6(&control_v6(source, dest, size), out),
        _ => unreachable!(),
    }
}

fn control_v4(source: u32, dest: u32, size: u16) -> V4Header
    requires { size ≤ 8 + most_message_octets }
    ensures { result ≡ control_v4 source dest size }
{
    V4Header {
        source,
        dest,
        tos: 0,
        total: 20 + size,
        id: 0,
        dont_fragment: true,
        more: false,
        offset: 0,
        ttl: CONTROL_HOPS,
        protocol: UDP,
        header_len: 20,
    }
}

fn control_v6(source: u128, dest: u128, size: u16) -> V6Header
    ensures { result ≡ control_v6 source dest size }
{
    V6Header {
        source,
        dest,
        class: 0,
        flow: 0,
        payload: size,
        next: UDP,
        hops: CONTROL_HOPS,
    }
}
