// The seconds between the frames of a capture, one after another, through a machine.
ghost use Rattle.std.specs.Prelude.{◌≡◌, ◌<◌, ◌≤◌, ◌*◌, ◌^◌, ◌∷◌, [], false, IsErrOf, OnOk, option_map, unwrap_or};
ghost use Rattle.desk.specs.declared.fault.DeskFault.TheVariants.{Failed};
ghost use Rattle.desk.specs.Causes.{HasCause, StaysSteady};
ghost use Rattle.capture_events.specs.Events.{steps_of, ticks, Happens, Tick};
ghost use Rattle.playback.specs.Front.{Goes};
ghost use Rattle.playback.specs.Limits.{most_frames};
ghost use Rattle.playback.specs.Machines.{IsReadyBy, MayTick, StaysReady};
ghost use Rattle.playback.specs.Playing.{is_full, KeepsReaders, MayWrite};

use crate::machine::Machine;
use crate::output::{Output, hand_on_full};
use crate::progress::Progress;
use capture_events::seconds_between;
use desk::{Desk, DeskFault, FileId};
use std::alloc::Global;

/// Plays the seconds that begin after the last event, up to and with the second of a moment (in
/// nanoseconds); none before the first frame.
pub(crate) fn play_seconds<D: Desk, M: Machine>(
    alloc: Global,
    desk: &mut D,
    machine: &mut M,
    file: Option<FileId>,
    progress: Progress,
    moment: u64,
    output: &mut Output,
) -> Result<(), DeskFault>
    requires ready { M.IsReady progress output.old.written machine.old }
    requires not_full { M.full (M.state machine.old) ≡ false }
    requires later { unwrap_or progress.moment 0 ≤ moment }
    requires most { progress.frames ≤ most_frames }
    requires moment { moment < 2 ^ 32 * 1000000000 }
    ensures ready { OnOk result
        (IsReadyBy M.IsReady progress.frames moment output.new.written machine.new) }
    ensures not_full { OnOk result (M.full (M.state machine.new) ≡ false) }
    ensures goes { Goes M.Does (option_map (λ id. id.number) file)
        (M.state machine.old) (M.state machine.new) (steps_of (ticks progress.moment moment))
        output.old (D.told desk.old) result output.new (D.told desk.new) }
    ensures piece { is_full output.old ≡ false → OnOk result (is_full output.new ≡ false) }
    ensures readers { OnOk result (KeepsReaders (D.told desk.old) (D.told desk.new)) }
    ensures cause { HasCause (D.faults desk.old) (D.faults desk.new) result }
    ensures given { D.given desk.new ≡ D.given desk.old }
    ensures steady { StaysSteady (D.steady desk.old) (D.steady desk.new)
        (MayWrite (option_map (λ id. id.number) file) (D.given desk.old)) (IsErrOf result Failed) }
{
    for second in seconds_between(progress.moment, moment) {
        play_second(alloc, desk, machine, file, second, output)?;
    }
    Ok(())
}

// Plays a second, and hands on gathered output that is enough for a piece.
fn play_second<D: Desk, M: Machine>(
    alloc: Global,
    desk: &mut D,
    machine: &mut M,
    file: Option<FileId>,
    second: u32,
    output: &mut Output,
) -> Result<(), DeskFault>
    requires ready { MayTick M.IsReady second output.old.written machine.old }
    requires not_full { M.full (M.state machine.old) ≡ false }
    ensures ready { OnOk result
        (StaysReady M.IsReady second output.old.written machine.old output.new.written machine.new) }
    ensures not_full { OnOk result (M.full (M.state machine.new) ≡ false) }
    ensures goes { Goes M.Does (option_map (λ id. id.number) file)
        (M.state machine.old) (M.state machine.new) (Happens (Tick second) ∷ [])
        output.old (D.told desk.old) result output.new (D.told desk.new) }
    ensures piece { OnOk result (is_full output.new ≡ false) }
    ensures readers { OnOk result (KeepsReaders (D.told desk.old) (D.told desk.new)) }
    ensures cause { HasCause (D.faults desk.old) (D.faults desk.new) result }
    ensures given { D.given desk.new ≡ D.given desk.old }
    ensures steady { StaysSteady (D.steady desk.old) (D.steady desk.new)
        (MayWrite (option_map (λ id. id.number) file) (D.given desk.old)) (IsErrOf result Failed) }
{
    machine.tick(second, output)?;
    hand_on_full(alloc, desk, file, output)
}
