// Files of packets, as text.
use anyhow::Result;
use std::alloc::Global;

/// A capture in lines: of each packet its moment and the length that it had, and its octets,
/// sixteen a line. Captures that differ have different lines.
pub fn listed(alloc: Global, capture: &[u8]) -> Result<String> {
    let mut text = String::new(alloc);
    let (header, mut rest) = capture.split_at_checked(24).unwrap_or((capture, &[]));
    push_octets(alloc, "header", header, &mut text)?;
    for number in 1..u32::MAX {
        let Some((head, packet, more)) = first_record(rest) else {
            break;
        };
        let (second, nanosecond, length) = head;
        let name = format!(in alloc; "packet {number}")?;
        let line = format!(in alloc; "{name} at {second}.{nanosecond:09}, {length} octets\n")?;
        text.push_str(line.as_str())?;
        push_octets(alloc, name.as_str(), packet, &mut text)?;
        rest = more;
    }
    push_octets(alloc, "behind them", rest, &mut text)?;
    Ok(text)
}

fn push_octets(alloc: Global, name: &str, octets: &[u8], text: &mut String) -> Result<()> {
    let mut place = 0usize;
    for piece in octets.chunks(16) {
        let hex = hex::encode(alloc, piece)?;
        let line = format!(in alloc; "{name}, octet {place}: {hex}\n")?;
        text.push_str(line.as_str())?;
        place = place.saturating_add(16);
    }
    Ok(())
}

// The first record: the moment and the length that its packet had, the octets that are kept, and
// the octets behind the record.
fn first_record(octets: &[u8]) -> Option<((u32, u32, u32), &[u8], &[u8])> {
    let (second, rest) = first_number(octets)?;
    let (nanosecond, rest) = first_number(rest)?;
    let (size, rest) = first_number(rest)?;
    let (length, rest) = first_number(rest)?;
    let (packet, rest) = rest.split_at_checked(size as usize)?;
    Some(((second, nanosecond, length), packet, rest))
}

fn first_number(octets: &[u8]) -> Option<(u32, &[u8])> {
    let (number, rest) = octets.split_first_chunk::<4>()?;
    Some((u32::from_le_bytes(*number), rest))
}
