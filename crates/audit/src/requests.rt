// The nonce of the Map-Request that the router sent in a frame.
ghost use Rattle.std.specs.Prelude.{◌≡◌, ◌<◌, ◌+◌, ◌^◌, length, IfOk};
ghost use Rattle.router_core.specs.Seen.{course_seen, datagram_seen, packet_seen};
ghost use Rattle.audit.specs.Requests.{carried_nonce, course_nonce, datagram_nonce, message_nonce, nonce_of, own_nonce, sent_nonce};

use capture_io::Frame;
use ip_headers::{IpPacket, check_udp, udp_payload};
use lisp_settings::{OwnLocator, Settings, is_own};
use map_messages::{Ecm, Message, MessageFault, read_message};
use octets::NoMemory;
use router_core::{Course, Datagram, arriving, frame_packet};
use std::alloc::Global;

/// The nonce of the Map-Request that the router sent in a frame, encapsulated or not, or None where
/// it sent none.
#[tactic(auto, unfolding(crate::specs::Requests::sent_nonce))]
pub(crate) fn sent_nonce(
    alloc: Global,
    settings: &Settings,
    frame: &Frame,
) -> Result<Option<u64>, NoMemory>
    ensures { IfOk result (λ nonce. nonce ≡ sent_nonce settings.now frame.now) }
{
    match frame_packet(frame) {
        Ok((_, packet)) => own_nonce(alloc, settings.locators.as_slice(), packet),
        Err(_) => Ok(None),
    }
}

// The nonce of the Map-Request in a packet from an own locator, or None. The packet is judged as
// one that comes to an own locator.
fn own_nonce(
    alloc: Global,
    locators: &[OwnLocator],
    packet: IpPacket,
) -> Result<Option<u64>, NoMemory>
    ensures { IfOk result (λ nonce. nonce ≡ own_nonce locators.now (packet_seen packet.entry)) }
{
    if is_own(locators, packet.header.source()) {
        course_nonce(alloc, arriving(packet))
    } else {
        Ok(None)
    }
}

// The nonce of the Map-Request in a control message, or None. A packet of any other course has
// none.
fn course_nonce(alloc: Global, course: Course) -> Result<Option<u64>, NoMemory>
    ensures { IfOk result (λ nonce. nonce ≡ course_nonce (course_seen course.entry)) }
{
    match course {
        Course::Control(datagram) => datagram_nonce(alloc, &datagram),
        _ => Ok(None),
    }
}

// The nonce of the Map-Request in a datagram, whose UDP checksum must be there and right, or None.
fn datagram_nonce(alloc: Global, datagram: &Datagram) -> Result<Option<u64>, NoMemory>
    ensures { IfOk result (λ nonce. nonce ≡ datagram_nonce (datagram_seen datagram.now)) }
{
    let (packet, udp) = (&datagram.packet, &datagram.udp);
    match check_udp(packet, udp, false) {
        Ok(()) => message_nonce(alloc, udp_payload(packet, udp), packet.base + udp.at + 8),
        Err(_) => Ok(None),
    }
}

// The nonce of the Map-Request at the front of octets, whose places count from `base`, or None.
#[tactic(auto, using(router_model::proofs::ReceivedLemmas::message_in_is))]
fn message_nonce(alloc: Global, octets: &[u8], base: u32) -> Result<Option<u64>, NoMemory>
    requires { base + length octets.now < 2 ^ 32 }
    ensures { IfOk result (λ nonce. nonce ≡ message_nonce base octets.now) }
{
    match read_message(alloc, octets, base) {
        Ok((message, _)) => Ok(nonce_of(&message)),
        Err(MessageFault::Refused(_)) => Ok(None),
        Err(MessageFault::Memory) => Err(NoMemory),
    }
}

// The nonce of the Map-Request that a message is or carries, or None.
fn nonce_of(message: &Message) -> Option<u64>
    ensures { result ≡ nonce_of message.now }
{
    match message {
        Message::Request(request) => Some(request.nonce),
        Message::Reply(_) => None,
        Message::Control(ecm) => carried_nonce(ecm),
    }
}

fn carried_nonce(ecm: &Ecm) -> Option<u64>
    ensures { result ≡ carried_nonce ecm.now.request }
{
    match &ecm.request {
        Some(request) => Some(request.nonce),
        None => None,
    }
}
