// Reading of control messages.
ghost use Rattle.std.specs.Prelude.{◌≡◌, ◌≤◌, ◌<◌, ◌+◌, ◌^◌, length, IfOk};
ghost use Rattle.octets.specs.Rules.{first_failing};
ghost use Rattle.mapping_records.specs.Record.{RefusesBy};
ghost use Rattle.map_messages.specs.Message.{message_rules, message_size, IsMessageAt};
ghost use Rattle.map_messages.specs.Control.{ecm_rules, ecm_size};
ghost use Rattle.map_messages.specs.Range.{InRange};
ghost use Rattle.map_messages.specs.Reply.{reply_rules, reply_size};
ghost use Rattle.map_messages.specs.Request.{request_rules, request_size};
ghost use Rattle.map_messages.specs.Words.{is_ecm, kind};

use crate::ecm_reading::read_ecm;
use crate::places::kind;
use crate::plain_reading::{front_refusal, read_reply};
use crate::request_reading::read_request;
use crate::{Message, MessageFault};
use std::alloc::Global;

/// The message at the front of the octets, and how many octets are left over: those that are no
/// part of it, of the word in front of an encapsulated one, or of its inner headers. Places count
/// from `base`.
pub fn read_message(alloc: Global, octets: &[u8], base: u32) -> Result<(Message, u32), MessageFault>
    requires { base + length octets.now < 2 ^ 32 }
    ensures refused { RefusesBy (first_failing (message_rules base octets.now)) result }
    ensures value { IfOk result (λ read. IsMessageAt octets.now read.0) }
    ensures left { IfOk result (λ read. message_size octets.now + read.1 ≡ length octets.now) }
    ensures range { IfOk result (λ read. InRange read.0) }
{
    if is_ecm(octets) {
        return read_control(alloc, octets, base);
    }
    if let Some(refused) = front_refusal(octets, base) {
        return Err(MessageFault::Refused(refused));
    }
    if kind(octets) == 1 {
        return read_as_request(alloc, octets, base);
    }
    read_as_reply(alloc, octets, base)
}

// The Encapsulated Control Message, and how many octets are left over.
fn read_control(alloc: Global, octets: &[u8], base: u32) -> Result<(Message, u32), MessageFault>
    requires room { base + length octets.now < 2 ^ 32 }
    requires kind { kind octets.now ≡ 8 }
    ensures refused { RefusesBy (first_failing (ecm_rules base octets.now)) result }
    ensures value { IfOk result (λ read. IsMessageAt octets.now read.0) }
    ensures left { IfOk result (λ read. ecm_size octets.now + read.1 ≡ length octets.now) }
    ensures range { IfOk result (λ read. InRange read.0) }
{
    let (ecm, size) = read_ecm(alloc, octets, base)?;
    let message = Message::Control(ecm);
    Ok((message, octets.len() as u32 - size))
}

// The Map-Request, and how many octets are left over.
fn read_as_request(alloc: Global, octets: &[u8], base: u32) -> Result<(Message, u32), MessageFault>
    requires room { base + length octets.now < 2 ^ 32 }
    requires head { 12 ≤ length octets.now }
    requires kind { kind octets.now ≡ 1 }
    ensures refused { RefusesBy (first_failing (request_rules base octets.now)) result }
    ensures value { IfOk result (λ read. IsMessageAt octets.now read.0) }
    ensures left { IfOk result (λ read. request_size octets.now + read.1 ≡ length octets.now) }
    ensures range { IfOk result (λ read. InRange read.0) }
{
    let (request, size) = read_request(alloc, octets, base)?;
    Ok((Message::Request(request), octets.len() as u32 - size))
}

// The Map-Reply, and how many octets are left over.
fn read_as_reply(alloc: Global, octets: &[u8], base: u32) -> Result<(Message, u32), MessageFault>
    requires room { base + length octets.now < 2 ^ 32 }
    requires head { 12 ≤ length octets.now }
    requires kind { kind octets.now ≡ 2 }
    ensures refused { RefusesBy (first_failing (reply_rules base octets.now)) result }
    ensures value { IfOk result (λ read. IsMessageAt octets.now read.0) }
    ensures left { IfOk result (λ read. reply_size octets.now + read.1 ≡ length octets.now) }
    ensures range { IfOk result (λ read. InRange read.0) }
{
    let (reply, size) = read_reply(alloc, octets, base)?;
    Ok((Message::Reply(reply), octets.len() as u32 - size))
}

fn is_ecm(octets: &[u8]) -> bool
    ensures { result ≡ is_ecm octets.now }
{
    !octets.is_empty() && kind(octets) == 8
}
