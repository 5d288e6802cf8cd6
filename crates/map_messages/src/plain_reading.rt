// Reading of messages that aren't encapsulated.
ghost use Rattle.std.specs.Prelude.{◌≡◌, ◌≤◌, ◌<◌, ◌+◌, ◌^◌, length, IfOk};
ghost use Rattle.octets.specs.Rules.{first_failing};
ghost use Rattle.mapping_records.specs.Record.{RefusesBy};
ghost use Rattle.map_messages.specs.Plain.{front_rules};
ghost use Rattle.map_messages.specs.Range.{InRangeReply};
ghost use Rattle.map_messages.specs.Reply.{reply_rules, reply_size, IsReplyAt};
ghost use Rattle.map_messages.specs.Words.{kind};

use crate::items::read_items;
use crate::places::{bit, kind, nonce_at};
use crate::{MapReply, MessageFault};
use mapping_records::refused;
use octets::{Refused, Why};
use std::alloc::Global;

/// The first failing rule among those up to the nonce, or None.
pub(crate) fn front_refusal(octets: &[u8], base: u32) -> Option<Refused>
    requires { base + length octets.now < 2 ^ 32 }
    ensures { result ≡ first_failing (front_rules base octets.now) }
{
    if octets.len() < 4 {
        return Some(refused(base, Why::Short));
    }
    let kind = kind(octets);
    if kind != 1 && kind != 2 {
        return Some(refused(base, Why::MessageType));
    }
    if kind == 2 && bit(2, octets[0]) {
        return Some(refused(base, Why::Authenticated));
    }
    if octets.len() < 12 {
        return Some(refused(base + 4, Why::Short));
    }
    None
}

/// The Map-Reply at the front of octets that hold its nonce, and the octets consumed.
pub(crate) fn read_reply(
    alloc: Global,
    octets: &[u8],
    base: u32,
) -> Result<(MapReply, u32), MessageFault>
    requires room { base + length octets.now < 2 ^ 32 }
    requires head { 12 ≤ length octets.now }
    requires kind { kind octets.now ≡ 2 }
    ensures refused { RefusesBy (first_failing (reply_rules base octets.now)) result }
    ensures value { IfOk result (λ read. IsReplyAt octets.now read.0) }
    ensures range { IfOk result (λ read. InRangeReply read.0) }
    ensures size { IfOk result (λ read. read.1 ≡ reply_size octets.now) }
    ensures inside { IfOk result (λ read. read.1 ≤ length octets.now) }
{
    let (mappings, end) = read_items(alloc, octets[3], octets, 12, base)?;
    let reply = MapReply {
        probe: bit(8, octets[0]),
        nonce: nonce_at(octets),
        mappings,
    };
    Ok((reply, end))
}
