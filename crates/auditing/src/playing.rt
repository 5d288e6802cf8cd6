// The frames of a capture, played one after another, and the packets of each.
ghost use Rattle.std.specs.Prelude.{◌≡◌, ◌≢◌, ◌<◌, ◌≤◌, ◌+◌, ◌*◌, ◌^◌, [], false, Some, Err, IfOk, IfSome, IsErrOf, IsSomeAnd, MatchOption, OnOk, length, unwrap_or};
ghost use Rattle.std.specs.Result.{MatchResult};
ghost use Rattle.octets.specs.Causes.{Rose};
ghost use Rattle.desk.specs.Causes.{StaysSteady};
ghost use Rattle.desk.specs.World.{to_read, shown, IsGiven};
ghost use Rattle.capture_events.specs.Events.{events_of, steps_of};
ghost use Rattle.capture_io.specs.declared.fault.CaptureFault.TheVariants.{Host};
ghost use Rattle.capture_io.specs.Reading as reading;
ghost use Rattle.audit.specs.declared.outcome.Outcome.TheVariants.{Same};
ghost use Rattle.playback.specs.Input.{beginning, behind};
ghost use Rattle.playback.specs.Limits.{most_arrival_octets, most_frames};
ghost use Rattle.auditing.specs.Auditing.{run_in};
ghost use Rattle.auditing.specs.Coming.{IsFaultOf};
ghost use Rattle.auditing.specs.Holding.{IsOpen, IsOver, Proceeds};

use crate::holding::Holding;
use crate::reading::read_next;
use crate::seconds::audit_seconds;
use capture_io::{CaptureFault, CaptureReader, Desk, Frame};
use playback::{Machine, Output, Progress, own_fault};
use std::alloc::Global;

/// Plays all frames of a capture of which no record was read before, each behind the seconds before
/// it, and compares the packets of each event. Returns the fault of that capture, or None; a fault
/// of the capture of sent packets is an error.
pub(crate) fn audit_input<D: Desk, M: Machine>(
    alloc: Global,
    desk: &mut D,
    machine: &mut M,
    input: CaptureReader,
    holding: &mut Holding,
) -> Result<Option<CaptureFault>, CaptureFault>
    requires input { input ≡ reading.beginning input.id input.format }
    requires apart { input.id ≢ holding.old.sent.id }
    requires ready { M.IsReady beginning 0 machine.old }
    requires not_full { (state : M.State) → M.full state ≡ false }
    requires open { IsOpen holding.old }
    requires fresh { holding.old.auditor ≡ Same 0 }
    ensures over { IfSome (D.told desk.old) (λ w. MatchResult result
        (λ fault. MatchOption fault
        (IsSomeAnd (D.told desk.new) (IsOver M.Does (M.state machine.old)
        (run_in input w) (run_in holding.old.sent w) holding.new))
        (λ f. (run_in input w).fault ≡ Some f))
        (IsFaultOf (run_in holding.old.sent w))) }
    ensures open { OnOk result (IsOpen holding.new) }
    ensures id { holding.new.sent.id ≡ holding.old.sent.id }
    ensures shown { shown (D.told desk.new) ≡ shown (D.told desk.old) }
    ensures given { D.given desk.new ≡ D.given desk.old }
    ensures later { D.faults desk.old ≤ D.faults desk.new }
    ensures host { IsErrOf result Host → Rose (D.faults desk.old) (D.faults desk.new) }
    ensures same { result ≢ Err Host → D.faults desk.new ≡ D.faults desk.old }
    ensures steady { StaysSteady (D.steady desk.old) (D.steady desk.new)
        (IsGiven input.id to_read (D.given desk.old)
        × IsGiven holding.old.sent.id to_read (D.given desk.old))
        (IsErrOf result Host) }
{
    let mut reader = input;
    let mut output = Output::new(alloc);
    let mut progress = Progress {
        frames: 0,
        moment: None,
    };
    loop {
        match read_next(alloc, desk, &mut reader) {
            Ok(Some(frame)) => {
                let reached = Progress {
                    frames: frame.number,
                    moment: Some(frame.moment),
                };
                audit_frame(alloc, desk, machine, progress, frame, &mut output, holding)?;
                progress = reached;
            }
            Ok(None) => return Ok(None),
            Err(fault) => return Ok(Some(own_fault(fault)?)),
        }
    }
}

// Plays a frame behind the seconds before it, and compares the packets of each.
fn audit_frame<D: Desk, M: Machine>(
    alloc: Global,
    desk: &mut D,
    machine: &mut M,
    progress: Progress,
    frame: Frame,
    output: &mut Output,
    holding: &mut Holding,
) -> Result<(), CaptureFault>
    requires ready { M.IsReady progress output.old.written machine.old }
    requires not_full { (state : M.State) → M.full state ≡ false }
    requires next { frame.number ≡ progress.frames + 1 }
    requires later { unwrap_or progress.moment 0 ≤ frame.moment }
    requires most { frame.number ≤ most_frames }
    requires moment { frame.moment < 2 ^ 32 * 1000000000 }
    requires size { length frame.octets ≤ most_arrival_octets }
    requires records { output.old.records ≡ [] }
    requires open { IsOpen holding.old }
    ensures ready { OnOk result (M.IsReady (behind frame) output.new.written machine.new) }
    ensures records { OnOk result (output.new.records ≡ []) }
    ensures open { OnOk result (IsOpen holding.new) }
    ensures proceeds { Proceeds M.Does (M.state machine.old) (M.state machine.new)
        (steps_of (events_of progress.moment frame))
        holding.old (D.told desk.old) result holding.new (D.told desk.new) }
    ensures id { holding.new.sent.id ≡ holding.old.sent.id }
    ensures shown { shown (D.told desk.new) ≡ shown (D.told desk.old) }
    ensures given { D.given desk.new ≡ D.given desk.old }
    ensures later_faults { D.faults desk.old ≤ D.faults desk.new }
    ensures host { IsErrOf result Host → Rose (D.faults desk.old) (D.faults desk.new) }
    ensures same { result ≢ Err Host → D.faults desk.new ≡ D.faults desk.old }
    ensures steady { StaysSteady (D.steady desk.old) (D.steady desk.new)
        (IsGiven holding.old.sent.id to_read (D.given desk.old)) (IsErrOf result Host) }
{
    audit_seconds(
        alloc,
        desk,
        machine,
        progress,
        frame.moment,
        output,
        holding,
    )?;
    machine.take(frame, output)?;
    holding.expect_output(alloc, desk, output)
}
