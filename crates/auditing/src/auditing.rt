// Two captures: one is played, and the packets sent for it are compared with the other.
ghost use Rattle.std.specs.Prelude.{◌≡◌, ◌≢◌, ◌≤◌, false, Err, IfOk, IfSome, IsErrOf};
ghost use Rattle.std.specs.Result.{MatchResult};
ghost use Rattle.octets.specs.Causes.{Rose};
ghost use Rattle.desk.specs.declared.fault.DeskFault.TheVariants.{Failed};
ghost use Rattle.desk.specs.Causes.{HasCause, StaysSteady};
ghost use Rattle.desk.specs.World.{to_read, shown, IsGiven};
ghost use Rattle.capture_io.specs.declared.fault.CaptureFault.TheVariants.{Host};
ghost use Rattle.capture_io.specs.Reading as reading;
ghost use Rattle.playback.specs.Input.{beginning};
ghost use Rattle.auditing.specs.Auditing.{run_in, IsAudited};
ghost use Rattle.auditing.specs.Coming.{IsFaultOf};

use crate::audited::Audited;
use crate::holding::Holding;
use crate::playing::audit_input;
use capture_io::{CaptureFault, CaptureReader, Desk, DeskFault};
use playback::{Machine, own_fault};
use std::alloc::Global;

/// Plays a capture through a machine, and compares the packets that it sends with the records of
/// another capture, one by one. No record of either capture was read before. Lines of the machine
/// are dropped. Behind a fault of one capture the other one isn't read on.
pub fn audit_frames<D: Desk, M: Machine>(
    alloc: Global,
    desk: &mut D,
    machine: &mut M,
    input: CaptureReader,
    sent: CaptureReader,
) -> Result<Audited, DeskFault>
    requires input { input ≡ reading.beginning input.id input.format }
    requires sent { sent ≡ reading.beginning sent.id sent.format }
    requires apart { input.id ≢ sent.id }
    requires ready { M.IsReady beginning 0 machine.old }
    requires not_full { (state : M.State) → M.full state ≡ false }
    ensures audited { IfOk result (λ audited. IfSome (D.told desk.old) (λ w.
        IsAudited M.Does (M.state machine.old) (run_in input w) (run_in sent w) audited)) }
    ensures shown { shown (D.told desk.new) ≡ shown (D.told desk.old) }
    ensures cause { HasCause (D.faults desk.old) (D.faults desk.new) result }
    ensures given { D.given desk.new ≡ D.given desk.old }
    ensures steady { StaysSteady (D.steady desk.old) (D.steady desk.new)
        (IsGiven input.id to_read (D.given desk.old) × IsGiven sent.id to_read (D.given desk.old))
        (IsErrOf result Failed) }
{
    match audit_both(alloc, desk, machine, input, sent) {
        Ok(audited) => Ok(audited),
        Err(fault) => Ok(Audited::Sent(own_fault(fault)?)),
    }
}

// Plays and compares as `audit_frames` does, but a fault of the capture that was sent is an error,
// as one of the desk or of memory is.
fn audit_both<D: Desk, M: Machine>(
    alloc: Global,
    desk: &mut D,
    machine: &mut M,
    input: CaptureReader,
    sent: CaptureReader,
) -> Result<Audited, CaptureFault>
    requires input { input ≡ reading.beginning input.id input.format }
    requires sent { sent ≡ reading.beginning sent.id sent.format }
    requires apart { input.id ≢ sent.id }
    requires ready { M.IsReady beginning 0 machine.old }
    requires not_full { (state : M.State) → M.full state ≡ false }
    ensures audited { IfSome (D.told desk.old) (λ w. MatchResult result
        (IsAudited M.Does (M.state machine.old) (run_in input w) (run_in sent w))
        (IsFaultOf (run_in sent w))) }
    ensures shown { shown (D.told desk.new) ≡ shown (D.told desk.old) }
    ensures given { D.given desk.new ≡ D.given desk.old }
    ensures later { D.faults desk.old ≤ D.faults desk.new }
    ensures host { IsErrOf result Host → Rose (D.faults desk.old) (D.faults desk.new) }
    ensures same { result ≢ Err Host → D.faults desk.new ≡ D.faults desk.old }
    ensures steady { StaysSteady (D.steady desk.old) (D.steady desk.new)
        (IsGiven input.id to_read (D.given desk.old) × IsGiven sent.id to_read (D.given desk.old))
        (IsErrOf result Host) }
{
    let mut holding = Holding::new(sent);
    if let Some(fault) = audit_input(alloc, desk, machine, input, &mut holding)? {
        return Ok(Audited::Played(fault));
    }
    Ok(Audited::Compared(holding.finish(alloc, desk)?))
}
