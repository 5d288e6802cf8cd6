// The rules of a block's first octets, and of its total length.
ghost use Rattle.std.specs.Prelude.{◌≡◌, ◌≤◌, [], ◌∷◌, length, nat_le, IsTrue};
ghost use Rattle.octets.specs.Rules.{first_failing};
ghost use Rattle.capture_ng.specs.Blocks.{begins_section, head_of, is_magic, is_packet, is_read, kind_at, kind_of, least_length, order_of};
ghost use Rattle.capture_ng.specs.Faults.{begin_rules, has_room, head_rules, length_rules};
ghost use Rattle.capture_ng.specs.Answers.{unless};
ghost use Rattle.capture_io.specs.Capture.{number};
ghost use Rattle.capture_ng.specs.declared.fault.NgFault.TheVariants.{BadMagic, CutBlock};

use crate::head::{Head, Kind};
use crate::position::Position;
use crate::{MOST_BLOCK_OCTETS, MOST_BLOCKS, NgFault};
use capture_io::{MOST_RECORDS, Order};
use octets::little_32;

// The Block Type of a section header, and the Byte-Order Magic, which gives its byte order.
const SECTION_HEADER: u32 = 0x0a0d_0d0a;

const MAGIC: u32 = 0x1a2b_3c4d;

fn kind_of(number: u32) -> Kind
    ensures { result ≡ kind_of number }
{
    match number {
        1 => Kind::InterfaceDescription,
        2 => Kind::ObsoletePacket,
        3 => Kind::SimplePacket,
        6 => Kind::EnhancedPacket,
        _ => Kind::Other,
    }
}

fn is_packet(kind: Kind) -> bool
    ensures { result ≡ is_packet kind }
{
    matches!(kind, Kind::SimplePacket | Kind::EnhancedPacket)
}

/// Whether a kind is one of the four whose body is read.
pub fn is_read(kind: Kind) -> bool
    ensures { result ≡ is_read kind }
{
    !matches!(kind, Kind::ObsoletePacket | Kind::Other)
}

fn least_length(kind: Kind) -> u32
    ensures { result ≡ least_length kind }
{
    match kind {
        Kind::SectionHeader => 28,
        Kind::InterfaceDescription => 20,
        Kind::SimplePacket => 16,
        Kind::EnhancedPacket => 32,
        Kind::ObsoletePacket | Kind::Other => 12,
    }
}

/// Whether octets begin with the Block Type of a section header.
pub fn begins_section(octets: &[u8]) -> bool
    requires { 4 ≤ length octets.now }
    ensures { result ≡ begins_section octets.now }
{
    little_32(octets, 0) == SECTION_HEADER
}

fn kind_at(at: &Position, octets: &[u8]) -> Kind
    requires { 4 ≤ length octets.now }
    ensures { result ≡ kind_at at.now octets.now }
{
    if begins_section(octets) {
        Kind::SectionHeader
    } else {
        kind_of(at.order.unwrap_or(Order::Little).number_32(octets, 0))
    }
}

fn order_of(at: &Position, octets: &[u8]) -> Order
    requires some { 4 ≤ length octets.now }
    requires section { IsTrue (begins_section octets.now) → 12 ≤ length octets.now }
    ensures { result ≡ order_of at.now octets.now }
{
    if !begins_section(octets) {
        at.order.unwrap_or(Order::Little)
    } else if little_32(octets, 8) == MAGIC {
        Order::Little
    } else {
        Order::Big
    }
}

// The head of a block, by its first octets: twelve of a section header, eight of any other.
fn head_of(at: &Position, octets: &[u8]) -> Head
    requires some { 8 ≤ length octets.now }
    requires section { IsTrue (begins_section octets.now) → 12 ≤ length octets.now }
    ensures { result ≡ head_of at.now octets.now }
{
    let order = order_of(at, octets);
    Head {
        kind: kind_at(at, octets),
        order,
        length: order.number_32(octets, 4),
    }
}

// Whether one block more may be read, and where it is a packet block, one frame more.
fn has_room(at: &Position, octets: &[u8]) -> bool
    ensures { result ≡ has_room at.now octets.now }
{
    if at.blocks >= MOST_BLOCKS {
        return false;
    }
    octets.len() < 4 || !is_packet(kind_at(at, octets)) || at.count < MOST_RECORDS
}

// The first rule that a block's first octets break, or None. They are twelve of a section header
// and eight of any other, or fewer where the file ends before.
fn begin_fault(at: &Position, octets: &[u8]) -> Option<NgFault>
    ensures { result ≡ first_failing (begin_rules at.now octets.now) }
{
    if !has_room(at, octets) {
        return Some(NgFault::TooManyRecords);
    }
    if octets.len() < 8 {
        return Some(NgFault::CutBlock(at.place));
    }
    if begins_section(octets) {
        return magic_fault(at, octets);
    }
    if at.order.is_none() {
        return Some(NgFault::BadMagic);
    }
    None
}

// The first rule that a section header's Byte-Order Magic breaks, or None where it is there and
// right.
fn magic_fault(at: &Position, octets: &[u8]) -> Option<NgFault>
    requires some { 8 ≤ length octets.now }
    requires section { IsTrue (begins_section octets.now) }
    ensures { result ≡ first_failing ((nat_le 12 (length octets.now), CutBlock at.now.place)
        ∷ (is_magic (number (order_of at.now octets.now) 4 octets.now 8), BadMagic) ∷ []) }
{
    if octets.len() < 12 {
        return Some(NgFault::CutBlock(at.place));
    }
    if order_of(at, octets).number_32(octets, 8) != MAGIC {
        return Some(NgFault::BadMagic);
    }
    None
}

// The first rule that a block's total length breaks, or None.
fn length_fault(at: &Position, head: Head) -> Option<NgFault>
    ensures { result ≡ first_failing (length_rules at.now head) }
{
    if head.length % 4 != 0 || head.length < least_length(head.kind) {
        return Some(NgFault::BadLength(at.place));
    }
    if is_read(head.kind) && head.length > MOST_BLOCK_OCTETS {
        return Some(NgFault::TooLong(at.place, head.length));
    }
    None
}

/// The head of a block by its first octets, or the first rule that these break. They are twelve of
/// a section header and eight of any other, or fewer where the file ends before.
pub fn read_head(at: &Position, octets: &[u8]) -> Result<Head, NgFault>
    ensures { result ≡ unless (first_failing (head_rules at.now octets.now)) (head_of at.now octets.now) }
{
    if let Some(fault) = begin_fault(at, octets) {
        return Err(fault);
    }
    let head = head_of(at, octets);
    if let Some(fault) = length_fault(at, head) {
        return Err(fault);
    }
    Ok(head)
}
