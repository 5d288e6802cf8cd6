// The seconds between the frames of a capture, played one after another, and the packets of each.
ghost use Rattle.std.specs.Prelude.{◌≡◌, ◌≢◌, ◌<◌, ◌≤◌, ◌*◌, ◌^◌, ◌∷◌, [], false, Err, IsErrOf, OnOk, unwrap_or};
ghost use Rattle.octets.specs.Causes.{Rose};
ghost use Rattle.desk.specs.Causes.{StaysSteady};
ghost use Rattle.desk.specs.World.{to_read, shown, IsGiven};
ghost use Rattle.capture_events.specs.Events.{steps_of, ticks, Happens, Tick};
ghost use Rattle.capture_io.specs.declared.fault.CaptureFault.TheVariants.{Host};
ghost use Rattle.playback.specs.Limits.{most_frames};
ghost use Rattle.playback.specs.Machines.{IsReadyBy, MayTick, StaysReady};
ghost use Rattle.auditing.specs.Holding.{IsOpen, Proceeds};

use crate::holding::Holding;
use capture_events::seconds_between;
use capture_io::{CaptureFault, Desk};
use playback::{Machine, Output, Progress};
use std::alloc::Global;

/// Plays the seconds that begin after the last event, up to the second of a moment (in nanoseconds)
/// and including it, and compares the packets of each. None is played before the first frame.
pub(crate) fn audit_seconds<D: Desk, M: Machine>(
    alloc: Global,
    desk: &mut D,
    machine: &mut M,
    progress: Progress,
    moment: u64,
    output: &mut Output,
    holding: &mut Holding,
) -> Result<(), CaptureFault>
    requires ready { M.IsReady progress output.old.written machine.old }
    requires not_full { (state : M.State) → M.full state ≡ false }
    requires later { unwrap_or progress.moment 0 ≤ moment }
    requires most { progress.frames ≤ most_frames }
    requires moment { moment < 2 ^ 32 * 1000000000 }
    requires records { output.old.records ≡ [] }
    requires open { IsOpen holding.old }
    ensures ready { OnOk result
        (IsReadyBy M.IsReady progress.frames moment output.new.written machine.new) }
    ensures records { OnOk result (output.new.records ≡ []) }
    ensures open { OnOk result (IsOpen holding.new) }
    ensures proceeds { Proceeds M.Does (M.state machine.old) (M.state machine.new)
        (steps_of (ticks progress.moment moment))
        holding.old (D.told desk.old) result holding.new (D.told desk.new) }
    ensures id { holding.new.sent.id ≡ holding.old.sent.id }
    ensures shown { shown (D.told desk.new) ≡ shown (D.told desk.old) }
    ensures given { D.given desk.new ≡ D.given desk.old }
    ensures later_faults { D.faults desk.old ≤ D.faults desk.new }
    ensures host { IsErrOf result Host → Rose (D.faults desk.old) (D.faults desk.new) }
    ensures same { result ≢ Err Host → D.faults desk.new ≡ D.faults desk.old }
    ensures steady { StaysSteady (D.steady desk.old) (D.steady desk.new)
        (IsGiven holding.old.sent.id to_read (D.given desk.old)) (IsErrOf result Host) }
{
    for second in seconds_between(progress.moment, moment) {
        audit_second(alloc, desk, machine, second, output, holding)?;
    }
    Ok(())
}

// Plays a second, and compares its packets.
fn audit_second<D: Desk, M: Machine>(
    alloc: Global,
    desk: &mut D,
    machine: &mut M,
    second: u32,
    output: &mut Output,
    holding: &mut Holding,
) -> Result<(), CaptureFault>
    requires ready { MayTick M.IsReady second output.old.written machine.old }
    requires not_full { (state : M.State) → M.full state ≡ false }
    requires records { output.old.records ≡ [] }
    requires open { IsOpen holding.old }
    ensures ready { OnOk result
        (StaysReady M.IsReady second output.old.written machine.old output.new.written machine.new) }
    ensures records { OnOk result (output.new.records ≡ []) }
    ensures open { OnOk result (IsOpen holding.new) }
    ensures proceeds { Proceeds M.Does (M.state machine.old) (M.state machine.new)
        (Happens (Tick second) ∷ [])
        holding.old (D.told desk.old) result holding.new (D.told desk.new) }
    ensures id { holding.new.sent.id ≡ holding.old.sent.id }
    ensures shown { shown (D.told desk.new) ≡ shown (D.told desk.old) }
    ensures given { D.given desk.new ≡ D.given desk.old }
    ensures later_faults { D.faults desk.old ≤ D.faults desk.new }
    ensures host { IsErrOf result Host → Rose (D.faults desk.old) (D.faults desk.new) }
    ensures same { result ≢ Err Host → D.faults desk.new ≡ D.faults desk.old }
    ensures steady { StaysSteady (D.steady desk.old) (D.steady desk.new)
        (IsGiven holding.old.sent.id to_read (D.given desk.old)) (IsErrOf result Host) }
{
    machine.tick(second, output)?;
    holding.expect_output(alloc, desk, output)
}
