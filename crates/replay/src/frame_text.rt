// The lines of `show` for a frame.
ghost use Rattle.std.specs.Prelude.{◌≡◌, ◌∷◌, ◌++◌, ◌≤◌, [], codes, flat_map, length, OnOk};
ghost use Rattle.std.specs.Fmt.{decimal};
ghost use Rattle.router_log.specs.Numbers.{fixed_hex, named};
ghost use Rattle.router_core.specs.Seen.{course_seen, packet_seen, settled_seen};
ghost use Rattle.replay.specs.Show.{control_text, course_text, data_line, data_text, frame_text, other_line, refused_line, settled_text, shown_frame};

use crate::message_lines::push_message;
use capture_io::Frame;
use ip_headers::{check_udp, udp_payload};
use lisp_header::read_header;
use map_messages::{MessageFault, read_message};
use octets::{NoMemory, Octets, Refused};
use router_core::{Course, Datagram, Settled, arriving, frame_packet};
use router_log::{
    MOST_DIGITS, Reason, push_refused, write_digits, write_hex_octets, write_named, write_octet,
    write_octets,
};
use std::alloc::Global;

/// Appends the lines of `show` for a frame, the first one behind the frame's number.
pub(crate) fn push_shown(alloc: Global, frame: &Frame, out: &mut Octets) -> Result<(), NoMemory>
    ensures { OnOk result (out.new ≡ out.old ++ shown_frame frame.now) }
{
    push_frame_number(frame.number, out)?;
    push_frame(alloc, frame, out)
}

// Appends the number of a frame, and a space behind it.
#[tactic(auto, using(router_log::proofs::DigitLemmas::length_any))]
fn push_frame_number(number: u32, out: &mut Octets) -> Result<(), NoMemory>
    ensures { OnOk result (out.new ≡ out.old ++ (decimal number ++ 32 ∷ [])) }
{
    let mut text = [0u8; MOST_DIGITS + 1];
    let end = write_octet(b' ', &mut text, MOST_DIGITS + 1);
    let from = write_digits(u64::from(number), &mut text, end);
    out.append(&text[from..])
}

// Appends the lines of `show` for a frame, without the frame's number.
#[tactic(auto, unfolding(crate::specs::Show::frame_text))]
fn push_frame(alloc: Global, frame: &Frame, out: &mut Octets) -> Result<(), NoMemory>
    ensures { OnOk result (out.new ≡ out.old ++ frame_text frame.now) }
{
    match frame_packet(frame) {
        Ok((_, packet)) => push_course(alloc, arriving(packet), out),
        Err(refused) => push_refused_line(refused, out),
    }
}

fn push_refused_line(refused: Refused, out: &mut Octets) -> Result<(), NoMemory>
    ensures { OnOk result (out.new ≡ out.old ++ refused_line refused) }
{
    out.append(b"refused ")?;
    push_refused(refused, out)?;
    out.push(b'\n')
}

fn push_other(out: &mut Octets) -> Result<(), NoMemory>
    ensures { OnOk result (out.new ≡ out.old ++ other_line) }
{
    out.append(b"other\n")
}

// Appends the lines of a packet, by the course that it has if it is to an own locator.
fn push_course(alloc: Global, course: Course, out: &mut Octets) -> Result<(), NoMemory>
    ensures { OnOk result (out.new ≡ out.old ++ course_text (course_seen course.entry)) }
{
    match course {
        Course::Settled(settled) => push_settled(settled, out),
        Course::Data(datagram) => push_data(&datagram, out),
        Course::Control(datagram) => push_control(alloc, &datagram, out),
        Course::Leaving { .. } => push_other(out),
    }
}

// Appends the line of a packet without a LISP datagram, which a rule of UDP may refuse.
fn push_settled(settled: Settled, out: &mut Octets) -> Result<(), NoMemory>
    ensures { OnOk result (out.new ≡ out.old ++ settled_text (settled_seen settled)) }
{
    match settled {
        Settled::Drop(Reason::Refused(refused)) => push_refused_line(refused, out),
        _ => push_other(out),
    }
}

// Appends the line of a datagram to the LISP data port, whose UDP checksum may be 0.
#[tactic(auto, unfolding(crate::specs::Show::data_text))]
fn push_data(datagram: &Datagram, out: &mut Octets) -> Result<(), NoMemory>
    ensures { OnOk result (out.new ≡ out.old
        ++ data_text (packet_seen datagram.now.packet) datagram.now.udp) }
{
    let (packet, udp) = (&datagram.packet, &datagram.udp);
    if let Err(refused) = check_udp(packet, udp, true) {
        return push_refused_line(refused, out);
    }
    let payload = udp_payload(packet, udp);
    match read_header(payload, packet.base + udp.at + 8) {
        Ok(_) => push_data_line(payload, out),
        Err(refused) => push_refused_line(refused, out),
    }
}

#[tactic(auto, unfolding(crate::specs::Show::data_line))]
fn push_data_line(payload: &[u8], out: &mut Octets) -> Result<(), NoMemory>
    requires { 8 ≤ length payload.now }
    ensures { OnOk result (out.new ≡ out.old ++ data_line payload.now) }
{
    push_header_line(&payload[..8], payload.len() - 8, out)
}

// The most octets of a LISP header's line: a word, two digits for each octet of the header, a
// number behind its name, and a line's end.
const MOST_HEADER_LINE: usize = 12 + 2 * 8 + 6 + MOST_DIGITS + 1;

// Appends the line of a LISP header, with the number of octets behind the header.
fn push_header_line(header: &[u8], left: usize, out: &mut Octets) -> Result<(), NoMemory>
    requires { length header.now ≤ 8 }
    ensures { OnOk result (out.new ≡ out.old ++ (codes "data header="
        ++ (flat_map (fixed_hex 2) header.now ++ (named (codes " left=") left ++ 10 ∷ [])))) }
{
    let mut text = [0u8; MOST_HEADER_LINE];
    let end = write_octet(b'\n', &mut text, MOST_HEADER_LINE);
    let end = write_named(b" left=", left as u64, &mut text, end);
    let end = write_hex_octets(header, &mut text, end);
    let from = write_octets(b"data header=", &mut text, end);
    out.append(&text[from..])
}

// Appends the lines of a datagram from or to the port of control messages, whose UDP checksum may
// not be 0.
#[tactic(auto, unfolding(crate::specs::Show::control_text))]
fn push_control(alloc: Global, datagram: &Datagram, out: &mut Octets) -> Result<(), NoMemory>
    ensures { OnOk result (out.new ≡ out.old
        ++ control_text (packet_seen datagram.now.packet) datagram.now.udp) }
{
    let (packet, udp) = (&datagram.packet, &datagram.udp);
    if let Err(refused) = check_udp(packet, udp, false) {
        return push_refused_line(refused, out);
    }
    let payload = udp_payload(packet, udp);
    match read_message(alloc, payload, packet.base + udp.at + 8) {
        Ok((message, left)) => push_message(&message, left, out),
        Err(MessageFault::Refused(refused)) => push_refused_line(refused, out),
        Err(MessageFault::Memory) => Err(NoMemory),
    }
}
