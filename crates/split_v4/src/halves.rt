// Either half of a packet, in its frame.
ghost use Rattle.std.specs.Prelude.{◌≡◌, ◌≤◌, ◌<◌, ◌+◌, ◌^◌, ◌++◌, All, length, take, drop, IfOk, OnOk, IsTrue};
ghost use Rattle.split_v4.specs.Limits.{least_split_size};
ghost use Rattle.split_v4.specs.Options.{are_options, copied_in, padded};
ghost use Rattle.split_v4.specs.Halves.{cut_in, first_half, front_with, may_split_above, second_half, summed, with_packet};

use crate::cutting::Cut;
use crate::header::{Own, front_with, sum_up, with_more};
use crate::options::{append_copied, padding};
use capture_io::Frame;
use ip_headers::IpPacket;
use octets::{NoMemory, Octets, big_16};
use std::alloc::Global;

/// The frame with the first half of its packet.
pub(crate) fn first_half(
    alloc: Global,
    frame: &Frame,
    packet: &IpPacket,
    cut: Cut,
) -> Result<Frame, NoMemory>
    requires may { IsTrue (may_split_above least_split_size packet.now.octets.now) }
    requires cut { cut ≡ cut_in packet.now.octets.now }
    requires within { packet.now.base + length packet.now.octets.now ≤ length frame.now.octets }
    ensures value { IfOk result (λ half. half
        ≡ with_packet frame.now packet.now.base (first_half packet.now.octets.now)) }
    ensures size { IfOk result (λ half. length half.octets ≤ length frame.now.octets) }
    ensures octets { IfOk result (λ half. All (λ octet. octet < 256) half.octets) }
{
    let options = &packet.octets[20..cut.header_len];
    let (_, behind) = packet.octets.split_at(cut.header_len);
    let (payload, _) = behind.split_at(8 * usize::from(cut.eighths));
    let own = Own {
        words: (cut.header_len / 4) as u8,
        total: (cut.header_len + payload.len()) as u16,
        flags: with_more(big_16(packet.octets, 6)),
    };
    let mut out = started(alloc, frame, packet, own)?;
    out.extend_from_slice(options)?;
    ended(frame, out, packet.base as usize, payload)
}

/// The frame with the second half of its packet.
pub(crate) fn second_half(
    alloc: Global,
    frame: &Frame,
    packet: &IpPacket,
    cut: Cut,
) -> Result<Frame, NoMemory>
    requires may { IsTrue (may_split_above least_split_size packet.now.octets.now) }
    requires cut { cut ≡ cut_in packet.now.octets.now }
    requires within { packet.now.base + length packet.now.octets.now ≤ length frame.now.octets }
    ensures value { IfOk result (λ half. half
        ≡ with_packet frame.now packet.now.base (second_half packet.now.octets.now)) }
    ensures size { IfOk result (λ half. length half.octets ≤ length frame.now.octets) }
    ensures octets { IfOk result (λ half. All (λ octet. octet < 256) half.octets) }
{
    let options = &packet.octets[20..cut.header_len];
    let (_, behind) = packet.octets.split_at(cut.header_len);
    let (_, rest) = behind.split_at(8 * usize::from(cut.eighths));
    let header_len = 20 + cut.copied_len;
    let own = Own {
        words: (header_len / 4) as u8,
        total: (header_len + rest.len()) as u16,
        flags: big_16(packet.octets, 6) + cut.eighths,
    };
    let mut out = started(alloc, frame, packet, own)?;
    append_padded(options, &mut out)?;
    ended(frame, out, packet.base as usize, rest)
}

// The octets before a packet and the first 20 of the header of a part of it, in a list with room for
// the whole part.
fn started(alloc: Global, frame: &Frame, packet: &IpPacket, own: Own) -> Result<Vec<u8>, NoMemory>
    requires long { 20 ≤ length packet.now.octets.now }
    requires words { own.words ≤ 15 }
    requires within { packet.now.base + length packet.now.octets.now ≤ length frame.now.octets }
    ensures { IfOk result (λ out. out.items ≡ take packet.now.base frame.now.octets
        ++ front_with packet.now.octets.now own.words own.total own.flags 0) }
{
    let (before, _) = frame.octets.as_slice().split_at(packet.base as usize);
    let mut out = Vec::with_capacity(alloc, before.len() + usize::from(own.total))?;
    out.extend_from_slice(before)?;
    out.extend_from_slice(&front_with(packet.octets, own))?;
    Ok(out)
}

// Appends the copied options, with zeros that lead to the next place of four octets.
fn append_padded(options: &[u8], out: &mut Vec<u8>) -> Result<(), NoMemory>
    requires { IsTrue (are_options options.now) }
    ensures { OnOk result (out.new.items ≡ out.old.items ++ padded (copied_in options.now)) }
{
    let start = out.len();
    append_copied(options, out)?;
    let copied = out.len() - start;
    out.extend_from_slice(&[0, 0, 0][..padding(copied)])?;
    Ok(())
}

// The frame with what was started in the place of its packet, its checksum, and the payload.
fn ended(frame: &Frame, mut out: Vec<u8>, base: usize, payload: &[u8]) -> Result<Frame, NoMemory>
    requires long { base + 20 ≤ length out.items }
    requires size { length out.items + length payload.now ≤ length frame.now.octets }
    ensures value { IfOk result (λ half. half ≡ record frame.now {
      octets = take base out.items ++ (summed (drop base out.items) ++ payload.now);
    }) }
    ensures size { IfOk result (λ half. length half.octets ≤ length frame.now.octets) }
    ensures octets { IfOk result (λ half. All (λ octet. octet < 256) half.octets) }
{
    append_payload(&mut out, base, payload)?;
    Ok(Frame {
        number: frame.number,
        moment: frame.moment,
        link: frame.link,
        octets: Octets::from_vec(out),
    })
}

// Puts its checksum into the header that stands at a place, and appends the payload.
fn append_payload(out: &mut Vec<u8>, base: usize, payload: &[u8]) -> Result<(), NoMemory>
    requires long { base + 20 ≤ length out.old.items }
    ensures value { OnOk result (out.new.items
        ≡ take base out.old.items ++ (summed (drop base out.old.items) ++ payload.now)) }
    ensures size { OnOk result (length out.new.items
        ≡ length out.old.items + length payload.now) }
    ensures octets { All (λ octet. octet < 256) out.new.items }
{
    sum_up(&mut out[base..]);
    out.extend_from_slice(payload)?;
    Ok(())
}
