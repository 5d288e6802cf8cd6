// Captures of frames, little-endian.
use crate::octets_of::octets_of;
use crate::rows::{Link, Names, Octets, Unit};
use anyhow::{Context, Result, ensure};
use std::alloc::Global;

// The second from which moments count.
const START: u32 = 1_700_000_000;

/// The header of a capture of that link and that unit.
pub fn header(alloc: Global, link: &Link, unit: &Unit) -> Result<Vec<u8>> {
    let magic = match unit {
        Unit::Us => 0xa1b2_c3d4_u32,
        Unit::Ns => 0xa1b2_3c4d,
    };
    let link = match link {
        Link::Raw => 101,
        Link::Ethernet => 1,
    };
    let mut capture = Vec::new(alloc);
    for number in [magic, 0x0004_0002, 0, 0, 262_144, link] {
        capture.extend_from_slice(&number.to_le_bytes())?;
    }
    Ok(capture)
}

/// Appends a record with a frame at a moment.
pub fn push_frame(
    alloc: Global,
    names: &Names<'_>,
    unit: &Unit,
    frame: (&str, &Octets),
    capture: &mut Vec<u8>,
) -> Result<()> {
    let (moment, octets) = frame;
    let (second, fraction) = moment_of(alloc, unit, moment)?;
    let octets = octets_of(alloc, names, octets)?;
    let size = u32::try_from(octets.len())?;
    for number in [second, fraction, size, size] {
        capture.extend_from_slice(&number.to_le_bytes())?;
    }
    capture.extend_from_slice(&octets)?;
    Ok(())
}

/// A capture of frames with their moments.
pub fn capture_of(
    alloc: Global,
    names: &Names<'_>,
    link: &Link,
    unit: &Unit,
    frames: &[(String, Octets)],
) -> Result<Vec<u8>> {
    let mut capture = header(alloc, link, unit)?;
    for (moment, octets) in frames {
        push_frame(alloc, names, unit, (moment.as_str(), octets), &mut capture)?;
    }
    Ok(capture)
}

/// An output of packets with their moments: raw, in nanoseconds.
pub fn output_of(
    alloc: Global,
    names: &Names<'_>,
    packets: &[(String, Octets)],
) -> Result<Vec<u8>> {
    capture_of(alloc, names, &Link::Raw, &Unit::Ns, packets)
}

// The second of a moment and the units behind it. A moment is a text of seconds behind the start.
fn moment_of(alloc: Global, unit: &Unit, moment: &str) -> Result<(u32, u32)> {
    let (whole, fraction) = moment.split_once('.').unwrap_or((moment, ""));
    ensure!(fraction.len() <= 9, "{moment:?} is finer than a nanosecond");
    let digits = format!(in alloc; "{fraction:0<9}")?;
    let seconds = number_of(moment, whole)?;
    let nanoseconds = number_of(moment, digits.as_str())?;
    let second = seconds
        .checked_add(START)
        .context("a moment behind all others")?;
    let size = match unit {
        Unit::Us => 1000,
        Unit::Ns => 1,
    };
    ensure!(nanoseconds % size == 0, "{moment:?} is finer than the unit");
    Ok((second, nanoseconds / size))
}

fn number_of(moment: &str, digits: &str) -> Result<u32> {
    digits
        .parse()
        .context(format_args!("{moment:?} is no moment"))
}
