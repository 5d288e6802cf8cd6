// Reading of Encapsulated Control Messages.
ghost use Rattle.std.specs.Prelude.{◌≡◌, ◌≤◌, ◌<◌, ◌+◌, ◌^◌, length, not, is_some, Ok, IfOk, IfSome};
ghost use Rattle.octets.specs.Refusals.{refusal_of};
ghost use Rattle.octets.specs.Rules.{first_failing};
ghost use Rattle.ip_headers.specs.Ip.{dest_of, payload_place, source_of};
ghost use Rattle.ip_headers.specs.Udp.{payload_in, udp_read};
ghost use Rattle.mapping_records.specs.Record.{RefusesBy};
ghost use Rattle.map_messages.specs.Control.{carried_rules, datagram_rules, ecm_rules, ecm_size, is_datagram, udp_of, word_rules, Carries, IsEcmAt};
ghost use Rattle.map_messages.specs.Plain.{plain_rules, plain_size, IsPlainAt};
ghost use Rattle.map_messages.specs.Range.{InRangeEcm, InRangeReply, InRangeRequest};
ghost use Rattle.map_messages.specs.Reply.{reply_rules, reply_size};
ghost use Rattle.map_messages.specs.Request.{request_rules, request_size};
ghost use Rattle.map_messages.specs.Words.{kind};

use crate::places::{bit, kind};
use crate::plain_reading::{front_refusal, read_reply};
use crate::request_reading::read_request;
use crate::{Ecm, LISP_CONTROL_PORT, MapReply, MapRequest, MessageFault};
use ip_headers::{IpPacket, UDP, UdpHeader, check_udp, read_ip, read_udp, udp_payload};
use mapping_records::refused;
use octets::{Refused, Why};
use std::alloc::Global;

/// The Encapsulated Control Message at the front of the octets, and the octets consumed.
pub(crate) fn read_ecm(alloc: Global, octets: &[u8], base: u32) -> Result<(Ecm, u32), MessageFault>
    requires room { base + length octets.now < 2 ^ 32 }
    requires kind { kind octets.now ≡ 8 }
    ensures refused { RefusesBy (first_failing (ecm_rules base octets.now)) result }
    ensures value { IfOk result (λ read. IsEcmAt octets.now read.0) }
    ensures range { IfOk result (λ read. InRangeEcm read.0) }
    ensures size { IfOk result (λ read. read.1 ≡ ecm_size octets.now) }
    ensures inside { IfOk result (λ read. read.1 ≤ length octets.now) }
{
    if let Some(refused) = word_refusal(octets, base) {
        return Err(MessageFault::Refused(refused));
    }
    let (_, rest) = octets.split_at(4);
    let packet = read_ip(rest, base + 4)?;
    let (ecm, size) = read_carried(alloc, &packet)?;
    Ok((ecm, 12 + packet.payload_at + size))
}

fn word_refusal(octets: &[u8], base: u32) -> Option<Refused>
    requires { base + length octets.now < 2 ^ 32 }
    ensures { result ≡ first_failing (word_rules base octets.now) }
{
    if octets.len() < 4 {
        return Some(refused(base, Why::Short));
    }
    if bit(8, octets[0]) {
        return Some(refused(base, Why::Authenticated));
    }
    None
}

// The datagram of a packet with the message in it, and the octets of that message.
fn read_carried(alloc: Global, packet: &IpPacket) -> Result<(Ecm, u32), MessageFault>
    ensures refused { let rules = carried_rules packet.now.base packet.now.header packet.now.octets.now in
        RefusesBy (first_failing rules) result }
    ensures source { IfOk result (λ read. read.0.source ≡ source_of packet.now.header) }
    ensures dest { IfOk result (λ read. read.0.dest ≡ dest_of packet.now.header) }
    ensures port { let udp = udp_of packet.now.header packet.now.octets.now in
        IfOk result (λ read. read.0.source_port ≡ udp.source) }
    ensures value { let udp = udp_of packet.now.header packet.now.octets.now in
        let Is = IsPlainAt (payload_in packet.now.octets.now udp) in
        IfOk result (λ read. Carries Is read.0.request read.0.reply) }
    ensures requests { IfOk result (λ read. IfSome read.0.request InRangeRequest) }
    ensures replies { IfOk result (λ read. IfSome read.0.reply InRangeReply) }
    ensures size { let udp = udp_of packet.now.header packet.now.octets.now in
        IfOk result (λ read. read.1 ≡ plain_size (payload_in packet.now.octets.now udp)) }
    ensures inside { IfOk result (λ read.
        payload_place packet.now.header + 8 + read.1 ≤ length packet.now.octets.now) }
{
    let udp = read_datagram(packet)?;
    let payload = udp_payload(packet, &udp);
    read_inner(alloc, packet, udp.source, payload, packet.base + udp.at + 8)
}

// The message that a packet carries from a port, and its octets.
fn read_inner(
    alloc: Global,
    packet: &IpPacket,
    port: u16,
    octets: &[u8],
    base: u32,
) -> Result<(Ecm, u32), MessageFault>
    requires { base + length octets.now < 2 ^ 32 }
    ensures refused { RefusesBy (first_failing (plain_rules base octets.now)) result }
    ensures source { IfOk result (λ read. read.0.source ≡ source_of packet.now.header) }
    ensures dest { IfOk result (λ read. read.0.dest ≡ dest_of packet.now.header) }
    ensures port { IfOk result (λ read. read.0.source_port ≡ port) }
    ensures value { IfOk result (λ read. Carries (IsPlainAt octets.now) read.0.request read.0.reply) }
    ensures requests { IfOk result (λ read. IfSome read.0.request InRangeRequest) }
    ensures replies { IfOk result (λ read. IfSome read.0.reply InRangeReply) }
    ensures size { IfOk result (λ read. read.1 ≡ plain_size octets.now) }
    ensures inside { IfOk result (λ read. read.1 ≤ length octets.now) }
{
    if let Some(refused) = front_refusal(octets, base) {
        return Err(MessageFault::Refused(refused));
    }
    if kind(octets) == 1 {
        return carried_request(alloc, packet, port, octets, base);
    }
    carried_reply(alloc, packet, port, octets, base)
}

// The Map-Request that a packet carries from a port, and its octets.
fn carried_request(
    alloc: Global,
    packet: &IpPacket,
    port: u16,
    octets: &[u8],
    base: u32,
) -> Result<(Ecm, u32), MessageFault>
    requires room { base + length octets.now < 2 ^ 32 }
    requires head { 12 ≤ length octets.now }
    requires kind { kind octets.now ≡ 1 }
    ensures refused { RefusesBy (first_failing (request_rules base octets.now)) result }
    ensures source { IfOk result (λ read. read.0.source ≡ source_of packet.now.header) }
    ensures dest { IfOk result (λ read. read.0.dest ≡ dest_of packet.now.header) }
    ensures port { IfOk result (λ read. read.0.source_port ≡ port) }
    ensures value { IfOk result (λ read. Carries (IsPlainAt octets.now) read.0.request read.0.reply) }
    ensures requests { IfOk result (λ read. IfSome read.0.request InRangeRequest) }
    ensures replies { IfOk result (λ read. IfSome read.0.reply InRangeReply) }
    ensures size { IfOk result (λ read. read.1 ≡ request_size octets.now) }
    ensures inside { IfOk result (λ read. read.1 ≤ length octets.now) }
{
    let (request, size) = read_request(alloc, octets, base)?;
    Ok((ecm_of(packet, port, Some(request), None), size))
}

// The Map-Reply that a packet carries from a port, and its octets.
fn carried_reply(
    alloc: Global,
    packet: &IpPacket,
    port: u16,
    octets: &[u8],
    base: u32,
) -> Result<(Ecm, u32), MessageFault>
    requires room { base + length octets.now < 2 ^ 32 }
    requires head { 12 ≤ length octets.now }
    requires kind { kind octets.now ≡ 2 }
    ensures refused { RefusesBy (first_failing (reply_rules base octets.now)) result }
    ensures source { IfOk result (λ read. read.0.source ≡ source_of packet.now.header) }
    ensures dest { IfOk result (λ read. read.0.dest ≡ dest_of packet.now.header) }
    ensures port { IfOk result (λ read. read.0.source_port ≡ port) }
    ensures value { IfOk result (λ read. Carries (IsPlainAt octets.now) read.0.request read.0.reply) }
    ensures requests { IfOk result (λ read. IfSome read.0.request InRangeRequest) }
    ensures replies { IfOk result (λ read. IfSome read.0.reply InRangeReply) }
    ensures size { IfOk result (λ read. read.1 ≡ reply_size octets.now) }
    ensures inside { IfOk result (λ read. read.1 ≤ length octets.now) }
{
    let (reply, size) = read_reply(alloc, octets, base)?;
    Ok((ecm_of(packet, port, None, Some(reply)), size))
}

// The UDP header of a packet, by the rules of a datagram that carries control messages.
#[tactic(auto, unfolding(crate::specs::Control::datagram_rules))]
fn read_datagram(packet: &IpPacket) -> Result<UdpHeader, Refused>
    ensures refused { let rules = datagram_rules packet.now.base packet.now.header packet.now.octets.now in
        refusal_of result ≡ first_failing rules }
    ensures value { IfOk result (λ udp. udp_read packet.now ≡ Ok udp) }
{
    if !is_datagram(packet) {
        return Err(refused(packet.base, Why::InnerProtocol));
    }
    let udp = read_udp(packet)?;
    if udp.dest != LISP_CONTROL_PORT {
        return Err(refused(packet.base + udp.at + 2, Why::InnerPort));
    }
    check_udp(packet, &udp, true)?;
    Ok(udp)
}

fn is_datagram(packet: &IpPacket) -> bool
    ensures { result ≡ is_datagram packet.now.header }
{
    packet.header.protocol() == UDP && !packet.header.is_fragment()
}

fn ecm_of(
    packet: &IpPacket,
    source_port: u16,
    request: Option<MapRequest>,
    reply: Option<MapReply>,
) -> Ecm
    requires { is_some request ≡ not (is_some reply) }
    ensures source { result.source ≡ source_of packet.now.header }
    ensures dest { result.dest ≡ dest_of packet.now.header }
    ensures port { result.source_port ≡ source_port }
    ensures request { result.request ≡ request }
    ensures reply { result.reply ≡ reply }
{
    Ecm {
        source: packet.header.source(),
        dest: packet.header.dest(),
        source_port,
        request,
        reply,
    }
}
