// The rules of a whole block, and of the packet in it.
ghost use Rattle.std.specs.Prelude.{◌≡◌, ◌≤◌, ◌<◌, ◌+◌, length, option_and_then, IfOk, IfErr, Some, None, false};
ghost use Rattle.octets.specs.Rules.{first_failing};
ghost use Rattle.capture_io.specs.Capture.{in_span};
ghost use Rattle.capture_io.specs.Limits.{most_frame_octets, most_records};
ghost use Rattle.capture_ng.specs.Answers.{is_outside_fault};
ghost use Rattle.capture_ng.specs.Faults.{ended_rules, section_rules, seen_rules};
ghost use Rattle.capture_ng.specs.Packets.{early, interface_number, kept, moment, packet_place, packet_room, time};

use crate::NgFault;
use crate::head::{Head, Kind};
use crate::interface::Interface;
use crate::packets::{moment_of, snapped};
use crate::position::Position;
use capture_io::{LONGEST_SPAN, Link, MOST_FRAME_OCTETS};

/// The first rule that a whole block breaks, or None. `last` is the number in the block's last four
/// octets, None where the block is cut.
pub fn whole_fault(at: &Position, head: Head, last: Option<u32>) -> Option<NgFault>
    ensures { result ≡ first_failing (ended_rules at.now head last) }
{
    let Some(length) = last else {
        return Some(NgFault::CutBlock(at.place));
    };
    if length != head.length {
        return Some(NgFault::BadLength(at.place));
    }
    if head.kind == Kind::ObsoletePacket {
        return Some(NgFault::OldPacket(at.place));
    }
    None
}

/// The rule that a section header breaks, or None. It has one: its Major Version is 1.
pub fn section_fault(at: &Position, head: Head, octets: &[u8]) -> Option<NgFault>
    requires { 14 ≤ length octets.now }
    ensures { result ≡ first_failing (section_rules at.now head octets.now) }
{
    if head.order.number_16(octets, 12) != 1 {
        return Some(NgFault::BadVersion(at.place));
    }
    None
}

/// The Interface ID of a packet block; of a simple packet 0, the section's first interface.
pub fn interface_number(head: Head, octets: &[u8]) -> u32
    requires { packet_place head ≤ length octets.now }
    ensures { result ≡ interface_number head octets.now }
{
    if head.kind == Kind::EnhancedPacket {
        head.order.number_32(octets, 8)
    } else {
        0
    }
}

/// How many octets of its packet a block keeps: the Captured Packet Length; of a simple packet the
/// Original Packet Length, limited by SnapLen.
pub fn kept(head: Head, interface: Interface, octets: &[u8]) -> u32
    requires { packet_place head ≤ length octets.now }
    ensures { result ≡ kept head interface octets.now }
{
    if head.kind == Kind::EnhancedPacket {
        head.order.number_32(octets, 20)
    } else {
        snapped(interface.snap, head.order.number_32(octets, 8))
    }
}

// The Timestamp of an enhanced packet block, in the units of its interface.
fn time(head: Head, octets: &[u8]) -> u64
    requires { 20 ≤ length octets.now }
    ensures { result ≡ time head octets.now }
{
    let high = u64::from(head.order.number_32(octets, 12));
    let low = u64::from(head.order.number_32(octets, 16));
    high * 0x1_0000_0000 + low
}

/// The moment of a packet block, in nanoseconds, or None where no frame may have it: before 1970,
/// or of 2^32 seconds or more.
pub fn moment(at: &Position, head: Head, interface: Interface, octets: &[u8]) -> Option<u64>
    requires fields { packet_place head ≤ length octets.now }
    requires units { 0 < interface.clock.units }
    ensures { result ≡ option_and_then early (moment at.now head interface octets.now) }
{
    if head.kind == Kind::EnhancedPacket {
        moment_of(interface.clock, time(head, octets))
    } else {
        Some(at.greatest.unwrap_or(0))
    }
}

/// The offset of Packet Data in a packet block, in octets.
pub fn packet_place(head: Head) -> u32
    ensures { result ≡ packet_place head }
{
    if head.kind == Kind::EnhancedPacket {
        28
    } else {
        12
    }
}

// How many octets of a packet block lie between the start of Packet Data and the second total
// length.
fn packet_room(head: Head) -> u32
    requires { packet_place head + 4 ≤ head.length }
    ensures { result ≡ packet_room head }
{
    head.length - (packet_place(head) + 4)
}

// Whether a moment is no more than 1,000,000 seconds past the greatest so far.
fn is_in_span(at: &Position, moment: u64) -> bool
    ensures { result ≡ in_span at.now.greatest moment }
{
    match at.greatest {
        Some(greatest) => moment <= greatest + LONGEST_SPAN,
        None => true,
    }
}

/// The link type, the moment and the kept length of a packet whose block breaks no rule.
#[derive(Clone, Copy, Debug)]
pub struct Seen {
    pub link: Link,
    /// Nanoseconds since 1970 by the block, also where an earlier frame has a later moment.
    pub moment: u64,
    /// How many octets of the packet the block keeps.
    pub kept: u32,
}

/// The link type, moment and kept length of a packet of an interface, or the first rule that the
/// packet breaks.
pub fn read_seen(
    at: &Position,
    head: Head,
    interface: Interface,
    octets: &[u8],
) -> Result<Seen, NgFault>
    requires fields { packet_place head ≤ length octets.now }
    requires room { packet_place head + 4 ≤ head.length }
    requires units { 0 < interface.clock.units }
    requires count { at.now.count < most_records }
    ensures rules { IfOk result (λ seen.
        first_failing (seen_rules at.now head octets.now interface) ≡ None) }
    ensures link { IfOk result (λ seen. interface.link ≡ Some seen.link) }
    ensures moment { IfOk result (λ seen.
        option_and_then early (moment at.now head interface octets.now) ≡ Some seen.moment) }
    ensures kept { IfOk result (λ seen. seen.kept ≡ kept head interface octets.now) }
    ensures room { IfOk result (λ seen. seen.kept ≤ packet_room head) }
    ensures most { IfOk result (λ seen. seen.kept ≤ most_frame_octets) }
    ensures fault { IfErr result (λ fault.
        Some fault ≡ first_failing (seen_rules at.now head octets.now interface)) }
    ensures file { IfErr result (λ fault. is_outside_fault fault ≡ false) }
{
    let Some(link) = interface.link else {
        return Err(NgFault::BadLinkType(at.place));
    };
    let kept = kept(head, interface, octets);
    if kept > packet_room(head) {
        return Err(NgFault::BadLength(at.place));
    }
    if kept as usize > MOST_FRAME_OCTETS {
        return Err(NgFault::TooLong(at.place, kept));
    }
    let Some(moment) = moment(at, head, interface, octets) else {
        return Err(NgFault::BadMoment(at.place));
    };
    if !is_in_span(at, moment) {
        return Err(NgFault::SpanTooLong(at.count + 1));
    }
    Ok(Seen { link, moment, kept })
}
