// The options of an interface description block.
ghost use Rattle.std.specs.Prelude.{◌≡◌, ◌+◌, ◌<◌, ◌==◌, ◌&&◌, length, nat_le, is_some, slice_index, IfSome, IsFalse, IsTrue, Some, None, if◌then◌else◌};
ghost use Rattle.capture_io.specs.Capture.{number};
ghost use Rattle.capture_ng.specs.Interfaces.{added_of, behind_option, clock_on, ends_options, first_option, is_proper, is_unit, padded, per_second, plain_clock, set_by, size_in};

use crate::interface::{Added, Clock};
use crate::order::number_64;
use crate::{MOST_BINARY, MOST_DECIMAL};
use capture_io::Order;

/// The clock that an interface's options set, or None where one of them doesn't fit or isn't
/// proper.
pub fn read_options(order: Order, octets: &[u8]) -> Option<Clock>
    ensures value { result ≡ clock_on order plain_clock octets.now }
    ensures units { IfSome result (λ clock. 0 < clock.units) }
{
    let mut clock = Clock {
        units: 1_000_000,
        added: Added::Later(0),
    };
    let mut rest = octets;
    while !ends_options(order, rest) {
        let (code, value, behind) = split_option(order, rest)?;
        clock = set_by(order, code, value, clock)?;
        rest = behind;
    }
    Some(clock)
}

// The code and the value of the option at the front, and the octets behind it; None where the value
// doesn't fit.
fn split_option(order: Order, octets: &[u8]) -> Option<(u16, &[u8], &[u8])>
    requires { IsFalse (ends_options order octets.now) }
    ensures fits { is_some result ≡ nat_le (4 + size_in order octets.now) (length octets.now) }
    ensures option { IfSome result (λ parts.
        record { code = parts.0; value = parts.1.now } ≡ first_option order octets.now) }
    ensures behind { IfSome result (λ parts. parts.2.now ≡ behind_option order octets.now) }
{
    let size = usize::from(order.number_16(octets, 2));
    if octets.len() < 4 + size {
        return None;
    }
    let (_, rest) = octets.split_at(4);
    let (value, _) = rest.split_at(size);
    let (_, behind) = octets.split_at((4 + padded(size)).min(octets.len()));
    Some((order.number_16(octets, 0), value, behind))
}

// Whether no option is left: fewer than four octets, or code 0 (opt_endofopt).
fn ends_options(order: Order, octets: &[u8]) -> bool
    ensures { result ≡ ends_options order octets.now }
{
    octets.len() < 4 || order.number_16(octets, 0) == 0
}

// The length of an option's value with the padding behind it.
fn padded(size: usize) -> usize
    requires { size < 65536 }
    ensures { result ≡ padded size }
{
    (size + 3) / 4 * 4
}

// The clock as an option sets it, or None where the option isn't proper.
fn set_by(order: Order, code: u16, value: &[u8], clock: Clock) -> Option<Clock>
    requires { 0 < clock.units }
    ensures value { result ≡ (if is_proper order (record { code = code; value = value.now })
        then Some (set_by order (record { code = code; value = value.now }) clock) else None) }
    ensures units { IfSome result (λ set. 0 < set.units) }
{
    match code {
        9 => with_units(value, clock),
        14 => with_added(order, value, clock),
        _ => Some(clock),
    }
}

// The clock with the unit of an if_tsresol, or None where the value isn't one octet, or names a
// unit that isn't read.
fn with_units(value: &[u8], clock: Clock) -> Option<Clock>
    ensures value { result ≡ (if length value.now == 1 && is_unit (slice_index value.now 0)
        then Some (record clock { units = per_second (slice_index value.now 0) }) else None) }
    ensures units { IfSome result (λ set. 0 < set.units) }
{
    if value.len() != 1 || !is_unit(value[0]) {
        return None;
    }
    let units = per_second(value[0]);
    Some(Clock { units, ..clock })
}

// The clock with the seconds of an if_tsoffset, or None where the value isn't eight octets.
fn with_added(order: Order, value: &[u8], clock: Clock) -> Option<Clock>
    requires { 0 < clock.units }
    ensures value { result ≡ (if length value.now == 8
        then Some (record clock { added = added_of (number order 8 value.now 0) }) else None) }
    ensures units { IfSome result (λ set. 0 < set.units) }
{
    if value.len() != 8 {
        return None;
    }
    let added = added_of(number_64(order, value));
    Some(Clock { added, ..clock })
}

fn is_unit(x: u8) -> bool
    ensures { result ≡ is_unit x }
{
    if x < 128 {
        x <= MOST_DECIMAL
    } else {
        x - 128 <= MOST_BINARY
    }
}

// How many units of an if_tsresol make a second.
fn per_second(x: u8) -> u64
    requires { IsTrue (is_unit x) }
    ensures value { result ≡ per_second x }
    ensures some { 0 < result }
{
    if x < 128 {
        10u64.pow(u32::from(x))
    } else {
        2u64.pow(u32::from(x - 128))
    }
}

fn added_of(bits: u64) -> Added
    ensures { result ≡ added_of bits }
{
    if bits < 1 << 63 {
        Added::Later(bits)
    } else {
        Added::Earlier(u64::MAX - bits + 1)
    }
}
