// Writing of control messages.
ghost use Rattle.std.specs.Prelude.{◌≡◌, ◌≤◌, ◌++◌, length, OnOk, OnErr};
ghost use Rattle.map_messages.specs.Message.{canonical_message};
ghost use Rattle.map_messages.specs.Limits.{most_message_octets};
ghost use Rattle.map_messages.specs.Range.{InRange};

use crate::ecm_writing::write_ecm;
use crate::limits::FIRST_ROOM;
use crate::reply_writing::write_reply;
use crate::request_writing::write_request;
use crate::{Message, NoMemory, Octets};
use std::alloc::Global;

/// Appends a message, its ignored bits 0. The packet in an Encapsulated Control Message has TTL
/// `CONTROL_HOPS`, no DSCP and ECN, and its checksums. Without memory `out` stays as it was.
pub fn write_message(alloc: Global, message: &Message, out: &mut Octets) -> Result<(), NoMemory>
    requires range { InRange message.now }
    requires short { length (canonical_message message.now) ≤ most_message_octets }
    ensures ok { OnOk result (out.new ≡ out.old ++ canonical_message message.now) }
    ensures err { OnErr result (out.new ≡ out.old) }
{
    let mut octets = Octets::with_capacity(alloc, FIRST_ROOM)?;
    write_parts(alloc, message, &mut octets)?;
    out.append(octets.as_slice())
}

fn write_parts(alloc: Global, message: &Message, out: &mut Octets) -> Result<(), NoMemory>
    requires range { InRange message.now }
    requires short { length (canonical_message message.now) ≤ most_message_octets }
    ensures { OnOk result (out.new ≡ out.old ++ canonical_message message.now) }
{
    match message {
        Message::Request(request) => write_request(alloc, request, out),
        Message::Reply(reply) => write_reply(alloc, reply, out),
        Message::Control(ecm) => write_ecm(alloc, ecm, out),
    }
}
