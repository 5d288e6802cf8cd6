// The rules of a file's header and of a record's header, over the octets that were read.
ghost use Rattle.std.specs.Prelude.{◌≡◌, ◌≤◌, ◌<◌, ◌*◌, ◌^◌, length, IsTrue};
ghost use Rattle.octets.specs.Rules.{first_failing};
ghost use Rattle.capture_io.specs.Answers.{unless};
ghost use Rattle.capture_io.specs.Capture.{header_rules, is_magic, order_of, fraction_of, link_of, link_type, format_of, head_rules, moment, fraction, in_span, per_second};
ghost use Rattle.capture_io.specs.Reading.{is_moment};

use crate::format::{Format, Fraction};
use crate::order::Order;
use crate::position::Position;
use crate::{CaptureFault, LONGEST_SPAN, Link, MOST_FRAME_OCTETS, MOST_RECORDS};
use octets::little_32;

// The magic numbers, each of which gives the unit of fractions.
const MICROSECONDS: u32 = 0xa1b2_c3d4;

const NANOSECONDS: u32 = 0xa1b2_3c4d;

fn is_magic(number: u32) -> bool
    ensures { result ≡ is_magic number }
{
    number == MICROSECONDS || number == NANOSECONDS
}

// The byte order of a file: little-endian where it begins with a magic number in that order, else
// big-endian.
fn order_of(file: &[u8]) -> Order
    requires { 4 ≤ length file.now }
    ensures { result ≡ order_of file.now }
{
    if is_magic(little_32(file, 0)) {
        Order::Little
    } else {
        Order::Big
    }
}

/// The format of a file's records by the file's header, or the first rule that the header breaks.
pub fn read_format(file: &[u8]) -> Result<Format, CaptureFault>
    ensures { result ≡ unless (first_failing (header_rules file.now)) (format_of file.now) }
{
    if file.len() < 24 {
        return Err(CaptureFault::CutHeader(file.len() as u64));
    }
    let order = order_of(file);
    let magic = order.number_32(file, 0);
    if !is_magic(magic) {
        return Err(CaptureFault::BadMagic);
    }
    if order.number_16(file, 4) != 2 || order.number_16(file, 6) != 4 {
        return Err(CaptureFault::BadVersion);
    }
    let link = match order.number_32(file, 20) % 0x1_0000 {
        1 => Link::Ethernet,
        101 => Link::Raw,
        _ => return Err(CaptureFault::BadLink),
    };
    let fraction = if magic == NANOSECONDS {
        Fraction::Nanoseconds
    } else {
        Fraction::Microseconds
    };
    Ok(Format {
        order,
        fraction,
        link,
    })
}

/// The first rule that a record's header breaks, or None.
pub fn head_fault(format: Format, at: Position, head: &[u8]) -> Option<CaptureFault>
    ensures { result ≡ first_failing (head_rules format at head.now) }
{
    if at.count >= MOST_RECORDS {
        return Some(CaptureFault::TooManyRecords);
    }
    if head.len() < 16 {
        return Some(CaptureFault::CutRecord(at.place));
    }
    if format.order.number_32(head, 4) >= format.fraction.per_second() {
        return Some(CaptureFault::BadFraction(at.place));
    }
    let kept = format.order.number_32(head, 8);
    if kept as usize > MOST_FRAME_OCTETS {
        return Some(CaptureFault::TooLong(at.place, kept));
    }
    None
}

/// The moment in a record's header, in nanoseconds since 1970.
pub fn moment_of(format: Format, head: &[u8]) -> u64
    requires { 16 ≤ length head.now }
    ensures value { result ≡ moment format head.now }
    ensures fits { fraction format head.now < per_second format.fraction →
        result < 2 ^ 32 * 1000000000 }
{
    let seconds = u64::from(format.order.number_32(head, 0));
    let fraction = u64::from(format.order.number_32(head, 4));
    seconds * 1_000_000_000 + fraction * u64::from(format.fraction.nanoseconds())
}

/// Whether a moment is no more than 1,000,000 seconds past the greatest so far.
pub fn is_in_span(greatest: Option<u64>, moment: u64) -> bool
    requires { IsTrue (is_moment greatest) }
    ensures { result ≡ in_span greatest moment }
{
    match greatest {
        Some(greatest) => moment <= greatest + LONGEST_SPAN,
        None => true,
    }
}
