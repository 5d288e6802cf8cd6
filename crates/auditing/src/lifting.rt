// The nonces of the Map-Requests that a router sent, out of a whole capture.
ghost use Rattle.std.specs.Prelude.{◌≡◌, ◌≢◌, ◌≤◌, Err, IfOk, IfSome, IsErrOf, OnOk, Ok};
ghost use Rattle.std.specs.Result.{MatchResult};
ghost use Rattle.octets.specs.Causes.{Rose};
ghost use Rattle.desk.specs.declared.fault.DeskFault.TheVariants.{Failed};
ghost use Rattle.desk.specs.Causes.{HasCause, StaysSteady};
ghost use Rattle.desk.specs.World.{to_read, shown, IsGiven};
ghost use Rattle.capture_io.specs.declared.fault.CaptureFault.TheVariants.{Host};
ghost use Rattle.capture_io.specs.Reading as reading;
ghost use Rattle.auditing.specs.Auditing.{run_in, IsLifted, KeepsOthers};
ghost use Rattle.auditing.specs.Coming.{IsFaultOf};

use crate::reading::read_next;
use audit::{Lift, Nonces, Settings, frames_lift_one_by_one};
use capture_io::{CaptureFault, CaptureReader, Desk, DeskFault};
use playback::own_fault;
use std::alloc::Global;

/// The nonces of the Map-Requests that the router of these settings sent in a capture, or the fault
/// of the capture. No record of it was read before.
pub fn lift_nonces<D: Desk>(
    alloc: Global,
    desk: &mut D,
    settings: &Settings,
    sent: CaptureReader,
) -> Result<Result<Nonces, CaptureFault>, DeskFault>
    requires { sent ≡ reading.beginning sent.id sent.format }
    ensures lifted { IfOk result (λ nonces. IfSome (D.told desk.old) (λ w.
        IsLifted settings.now (run_in sent w) nonces)) }
    ensures others { IfOk result (λ nonces. IfOk nonces (λ _.
        KeepsOthers sent.id (D.told desk.old) (D.told desk.new))) }
    ensures shown { shown (D.told desk.new) ≡ shown (D.told desk.old) }
    ensures cause { HasCause (D.faults desk.old) (D.faults desk.new) result }
    ensures given { D.given desk.new ≡ D.given desk.old }
    ensures steady { StaysSteady (D.steady desk.old) (D.steady desk.new)
        (IsGiven sent.id to_read (D.given desk.old)) (IsErrOf result Failed) }
{
    match lift_all(alloc, desk, settings, sent) {
        Ok(nonces) => Ok(Ok(nonces)),
        Err(fault) => Ok(Err(own_fault(fault)?)),
    }
}

// Lifts nonces as `lift_nonces` does, but a fault of the capture is an error, as one of the desk or
// of memory is.
fn lift_all<D: Desk>(
    alloc: Global,
    desk: &mut D,
    settings: &Settings,
    sent: CaptureReader,
) -> Result<Nonces, CaptureFault>
    requires { sent ≡ reading.beginning sent.id sent.format }
    ensures lifted { IfSome (D.told desk.old) (λ w. MatchResult result
        (λ nonces. IsLifted settings.now (run_in sent w) (Ok nonces)) (IsFaultOf (run_in sent w))) }
    ensures others { OnOk result (KeepsOthers sent.id (D.told desk.old) (D.told desk.new)) }
    ensures shown { shown (D.told desk.new) ≡ shown (D.told desk.old) }
    ensures given { D.given desk.new ≡ D.given desk.old }
    ensures later { D.faults desk.old ≤ D.faults desk.new }
    ensures host { IsErrOf result Host → Rose (D.faults desk.old) (D.faults desk.new) }
    ensures same { result ≢ Err Host → D.faults desk.new ≡ D.faults desk.old }
    ensures steady { StaysSteady (D.steady desk.old) (D.steady desk.new)
        (IsGiven sent.id to_read (D.given desk.old)) (IsErrOf result Host) }
{
    frames_lift_one_by_one();
    let mut lift = Lift::new(alloc);
    let mut reader = sent;
    while let Some(frame) = read_next(alloc, desk, &mut reader)? {
        lift.see(alloc, settings, &frame)?;
    }
    Ok(lift.nonces())
}
