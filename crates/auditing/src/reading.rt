// A capture, read frame by frame, and to its end.
ghost use Rattle.std.specs.Prelude.{◌≡◌, ◌≢◌, ◌≤◌, None, Some, Err, IfOk, IfSome, IsErrOf, MatchOption, OnOk};
ghost use Rattle.std.specs.Result.{MatchResult};
ghost use Rattle.octets.specs.Causes.{Rose};
ghost use Rattle.desk.specs.declared.fault.DeskFault.TheVariants.{Failed};
ghost use Rattle.desk.specs.Causes.{HasCause, StaysSteady};
ghost use Rattle.desk.specs.World.{to_read, shown, IsGiven};
ghost use Rattle.capture_io.specs.declared.fault.CaptureFault.TheVariants.{Host};
ghost use Rattle.capture_io.specs.Limits.{most_records};
ghost use Rattle.capture_io.specs.Reading as reading;
ghost use Rattle.capture_io.specs.Reading.{after_frame, IsNext};
ghost use Rattle.auditing.specs.Auditing.{run_in};
ghost use Rattle.auditing.specs.Coming.{Comes, IsFaultOf};

use capture_io::{CaptureFault, CaptureReader, Desk, DeskFault, Frame};
use playback::own_fault;
use std::alloc::Global;

/// The fault of a capture of which no record was read before, or None. The capture is read up to
/// the fault, or to its end.
pub fn capture_fault<D: Desk>(
    alloc: Global,
    desk: &mut D,
    capture: CaptureReader,
) -> Result<Option<CaptureFault>, DeskFault>
    requires { capture ≡ reading.beginning capture.id capture.format }
    ensures fault { IfOk result (λ fault. IfSome (D.told desk.old) (λ w. fault ≡ (run_in capture w).fault)) }
    ensures shown { shown (D.told desk.new) ≡ shown (D.told desk.old) }
    ensures cause { HasCause (D.faults desk.old) (D.faults desk.new) result }
    ensures given { D.given desk.new ≡ D.given desk.old }
    ensures steady { StaysSteady (D.steady desk.old) (D.steady desk.new)
        (IsGiven capture.id to_read (D.given desk.old)) (IsErrOf result Failed) }
{
    match read_to_end(alloc, desk, capture) {
        Ok(()) => Ok(None),
        Err(fault) => Ok(Some(own_fault(fault)?)),
    }
}

/// The next frame, or None at the end. A fault of the file, of the desk or of memory is an error,
/// behind which the capture isn't read on.
pub(crate) fn read_next<D: Desk>(
    alloc: Global,
    desk: &mut D,
    reader: &mut CaptureReader,
) -> Result<Option<Frame>, CaptureFault>
    requires open { reader.old.fault ≡ None }
    ensures comes { IfSome (D.told desk.old) (λ w.
        Comes result reader.old reader.new w (D.told desk.new)) }
    ensures frame { IfOk result (λ found.
        IfSome found (IsNext reader.old.format reader.old.position)) }
    ensures after { IfOk result (λ found.
        MatchOption found (reader.new ≡ reader.old) (λ f. reader.new ≡ after_frame reader.old f)) }
    ensures open { OnOk result (reader.new.fault ≡ None) }
    ensures id { reader.new.id ≡ reader.old.id }
    ensures shown { shown (D.told desk.new) ≡ shown (D.told desk.old) }
    ensures given { D.given desk.new ≡ D.given desk.old }
    ensures later { D.faults desk.old ≤ D.faults desk.new }
    ensures host { IsErrOf result Host → Rose (D.faults desk.old) (D.faults desk.new) }
    ensures same { result ≢ Err Host → D.faults desk.new ≡ D.faults desk.old }
    ensures steady { StaysSteady (D.steady desk.old) (D.steady desk.new)
        (IsGiven reader.old.id to_read (D.given desk.old)) (IsErrOf result Host) }
{
    reader.next(alloc, desk)
}

/// Reads all frames that are left, to the end or to the fault.
pub(crate) fn read_to_end<D: Desk>(
    alloc: Global,
    desk: &mut D,
    capture: CaptureReader,
) -> Result<(), CaptureFault>
    requires open { capture.fault ≡ None }
    requires few { capture.position.count ≤ most_records }
    ensures ends { IfSome (D.told desk.old) (λ w.
        MatchResult result (λ _. (run_in capture w).fault ≡ None) (IsFaultOf (run_in capture w))) }
    ensures shown { shown (D.told desk.new) ≡ shown (D.told desk.old) }
    ensures given { D.given desk.new ≡ D.given desk.old }
    ensures later { D.faults desk.old ≤ D.faults desk.new }
    ensures host { IsErrOf result Host → Rose (D.faults desk.old) (D.faults desk.new) }
    ensures same { result ≢ Err Host → D.faults desk.new ≡ D.faults desk.old }
    ensures steady { StaysSteady (D.steady desk.old) (D.steady desk.new)
        (IsGiven capture.id to_read (D.given desk.old)) (IsErrOf result Host) }
{
    let mut reader = capture;
    while read_next(alloc, desk, &mut reader)?.is_some() {}
    Ok(())
}
