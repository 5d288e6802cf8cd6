// Writing of Map-Replies.
ghost use Rattle.std.specs.Prelude.{◌≡◌, ◌++◌, OnOk};
ghost use Rattle.map_messages.specs.Range.{InRangeReply};
ghost use Rattle.map_messages.specs.Reply.{canonical_reply, reply_head};

use crate::items::write_items;
use crate::{MapReply, NoMemory, Octets};
use std::alloc::Global;

/// Appends a Map-Reply (RFC 9301, section 5.4). Without memory a part of it stays.
pub fn write_reply(alloc: Global, reply: &MapReply, out: &mut Octets) -> Result<(), NoMemory>
    requires { InRangeReply reply.now }
    ensures { OnOk result (out.new ≡ out.old ++ canonical_reply reply.now) }
{
    out.append(&head(reply))?;
    write_items(alloc, reply.mappings.as_slice(), out)
}

// The first twelve octets of a Map-Reply, up to and with its nonce.
fn head(reply: &MapReply) -> [u8; 12]
    requires { InRangeReply reply.now }
    ensures { result ≡ reply_head reply.now }
{
    let first = if reply.probe { 40 } else { 32 };
    let count = reply.mappings.len() as u8;
    let [a, b, c, d, e, f, g, h] = reply.nonce.to_be_bytes();
    [first, 0, 0, count, a, b, c, d, e, f, g, h]
}
