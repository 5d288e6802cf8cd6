// The packets of control messages that this router sends.
ghost use Rattle.std.specs.Prelude.{◌≡◌, ◌≤◌, length, IfOk};
ghost use Rattle.ip_headers.specs.Addr.{width};
ghost use Rattle.capture_io.specs.Limits.{most_frame_octets};
ghost use Rattle.map_messages.specs.Message.{canonical_message};
ghost use Rattle.map_messages.specs.Range.{InRange};
ghost use Rattle.map_messages.specs.Reply.{canonical_reply};
ghost use Rattle.map_messages.specs.Limits.{most_message_octets};
ghost use Rattle.router_model.specs.Emits.{message_packet};
ghost use Rattle.router_core.specs.Sendable.{IsSendableReply};

use ip_headers::{Addr, write_udp};
use map_messages::{
    LISP_CONTROL_PORT, MapReply, Message, write_control_header, write_message, write_reply,
};
use octets::{NoMemory, Octets};
use std::alloc::Global;

// How many octets are reserved before a message is written: most messages have no more.
const FIRST_ROOM: usize = 256;

// The most octets of headers before a message: an IPv6 header and a UDP header.
const MOST_HEADERS: usize = 48;

/// The packet of a message between two addresses, from the port of control messages to `port`.
pub(crate) fn message_packet(
    alloc: Global,
    from: Addr,
    to: Addr,
    port: u16,
    message: &Message,
) -> Result<Octets, NoMemory>
    requires family { width from ≡ width to }
    requires range { InRange message.now }
    requires short { length (canonical_message message.now) ≤ most_message_octets }
    ensures octets { IfOk result (λ packet. packet
        ≡ message_packet from to port (canonical_message message.now)) }
    ensures size { IfOk result (λ packet. length packet ≤ most_frame_octets) }
{
    let mut payload = Octets::with_capacity(alloc, FIRST_ROOM)?;
    write_message(alloc, message, &mut payload)?;
    datagram_packet(alloc, from, to, port, payload.as_slice())
}

/// The packet of a Map-Reply between two addresses, from the port of control messages to `port`.
pub(crate) fn reply_packet(
    alloc: Global,
    from: Addr,
    to: Addr,
    port: u16,
    reply: &MapReply,
) -> Result<Octets, NoMemory>
    requires { IsSendableReply from to reply.now }
    ensures octets { IfOk result (λ packet. packet
        ≡ message_packet from to port (canonical_reply reply.now)) }
    ensures size { IfOk result (λ packet. length packet ≤ most_frame_octets) }
{
    let mut payload = Octets::with_capacity(alloc, FIRST_ROOM)?;
    write_reply(alloc, reply, &mut payload)?;
    datagram_packet(alloc, from, to, port, payload.as_slice())
}

// The packet of a payload between two addresses, from the port of control messages to `port`.
fn datagram_packet(
    alloc: Global,
    from: Addr,
    to: Addr,
    port: u16,
    payload: &[u8],
) -> Result<Octets, NoMemory>
    requires family { width from ≡ width to }
    requires short { length payload.now ≤ most_message_octets }
    ensures octets { IfOk result (λ packet. packet ≡ message_packet from to port payload.now) }
    ensures size { IfOk result (λ packet. length packet ≤ most_frame_octets) }
{
    let mut packet = Octets::with_capacity(alloc, MOST_HEADERS + payload.len())?;
    write_control_header(from, to, 8 + payload.len() as u16, &mut packet)?;
    write_udp(
        from,
        to,
        LISP_CONTROL_PORT,
        port,
        payload,
        true,
        &mut packet,
    )?;
    Ok(packet)
}
