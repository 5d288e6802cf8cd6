// One record of a capture.
ghost use Rattle.std.specs.List.{All};
ghost use Rattle.std.specs.Prelude.{◌≡◌, ◌≢◌, ◌≤◌, ◌<◌, List, false, length, take, option_map, None, Result, Ok, Err, IfOk, IfErr, IfSome, IsErrOf, IsTrue};
ghost use Rattle.octets.specs.Rules.{first_failing};
ghost use Rattle.octets.specs.Causes.{Rose};
ghost use Rattle.desk.specs.declared.fault.DeskFault.TheVariants.{Failed};
ghost use Rattle.desk.specs.Causes.{HasCause, StaysSteady};
ghost use Rattle.desk.specs.World.{left_of, after_read, to_read, shown, IsGiven};
ghost use Rattle.capture_io.specs.declared.fault.CaptureFault.TheVariants.{Host};
ghost use Rattle.capture_io.specs.Answers.{IsAnswer, is_outside_fault, unless};
ghost use Rattle.capture_io.specs.Capture.{outcome, taken, head_rules, body_rules, frame, kept};
ghost use Rattle.capture_io.specs.Reading.{is_reachable, IsNext};

use crate::format::Format;
use crate::header::{head_fault, is_in_span, moment_of};
use crate::position::Position;
use crate::{CaptureFault, Frame};
use desk::{Desk, DeskFault, FileId, read_full};
use octets::Octets;
use std::alloc::Global;

/// The frame of the next record, or None at the end. Its octets are read into the spare list.
pub fn read_record<D: Desk>(
    alloc: Global,
    desk: &mut D,
    id: FileId,
    format: Format,
    at: Position,
    spare: Vec<u8>,
) -> Result<Option<Frame>, CaptureFault>
    requires { IsTrue (is_reachable at) }
    ensures answer { IfSome (D.told desk.old) (λ w.
        IsAnswer result (outcome format at (left_of id.number w))) }
    ensures next { IfOk result (λ o. IfSome o (IsNext format at)) }
    ensures told { IfOk result (λ o.
        D.told desk.new ≡ option_map (after_read id.number (taken o)) (D.told desk.old)) }
    ensures shown { shown (D.told desk.new) ≡ shown (D.told desk.old) }
    ensures given { D.given desk.new ≡ D.given desk.old }
    ensures later { D.faults desk.old ≤ D.faults desk.new }
    ensures host { IsErrOf result Host → Rose (D.faults desk.old) (D.faults desk.new) }
    ensures same { result ≢ Err Host → D.faults desk.new ≡ D.faults desk.old }
    ensures steady { StaysSteady (D.steady desk.old) (D.steady desk.new)
        (IsGiven id.number to_read (D.given desk.old)) (IsErrOf result Host) }
{
    let mut head = [0u8; 16];
    let n = read_full(alloc, desk, id, &mut head)?;
    if n == 0 {
        return Ok(None);
    }
    if let Some(fault) = head_fault(format, at, &head[..n]) {
        return Err(fault);
    }
    let octets = read_body(alloc, desk, id, format.order.number_32(&head, 8), spare)?;
    let frame = frame_of(format, at, &head, octets)?;
    Ok(Some(frame))
}

// Reads the next `size` octets into the spare list, or fewer where the file ends before.
fn read_body<D: Desk>(
    alloc: Global,
    desk: &mut D,
    id: FileId,
    size: u32,
    spare: Vec<u8>,
) -> Result<Octets, DeskFault>
    ensures octets { IfOk result (λ o.
        IfSome (D.told desk.old) (λ w. o ≡ take size (left_of id.number w))) }
    ensures most { IfOk result (λ o. length o ≤ size) }
    ensures told { IfOk result (λ o.
        D.told desk.new ≡ option_map (after_read id.number (length o)) (D.told desk.old)) }
    ensures shown { shown (D.told desk.new) ≡ shown (D.told desk.old) }
    ensures given { D.given desk.new ≡ D.given desk.old }
    ensures cause { HasCause (D.faults desk.old) (D.faults desk.new) result }
    ensures steady { StaysSteady (D.steady desk.old) (D.steady desk.new)
        (IsGiven id.number to_read (D.given desk.old)) (IsErrOf result Failed) }
{
    let mut body = spare;
    body.resize(size as usize, 0)?;
    let n = read_full(alloc, desk, id, &mut body)?;
    body.truncate(n);
    Ok(Octets::from_vec(body))
}

// The frame of a record whose header breaks no rule, or the first rule that its body breaks.
fn frame_of(
    format: Format,
    at: Position,
    head: &[u8],
    octets: Octets,
) -> Result<Frame, CaptureFault>
    requires head { length head.now ≡ 16 }
    requires passed { first_failing (head_rules format at head.now) ≡ None }
    requires most { length octets ≤ kept format head.now }
    requires reachable { IsTrue (is_reachable at) }
    ensures value { result ≡
        unless (first_failing (body_rules format at head.now octets)) (frame format at head.now octets) }
    ensures next { IfOk result (IsNext format at) }
    ensures file { IfErr result (λ fault. is_outside_fault fault ≡ false) }
{
    if octet_count(octets.as_slice()) < format.order.number_32(head, 8) as usize {
        return Err(CaptureFault::CutRecord(at.place));
    }
    let moment = moment_of(format, head);
    if !is_in_span(at.greatest, moment) {
        return Err(CaptureFault::SpanTooLong(at.count + 1));
    }
    Ok(Frame {
        number: at.count + 1,
        moment: at.greatest.unwrap_or(0).max(moment),
        link: format.link,
        octets,
    })
}

// The number of octets. The clause `octets` brings the fact that they are below 256.
fn octet_count(octets: &[u8]) -> usize
    ensures count { result ≡ length octets.now }
    ensures octets { All (λ octet. octet < 256) octets.now }
{
    octets.len()
}
