// The frames of a capture, one after another, through a machine.
ghost use Rattle.std.specs.Prelude.{◌≡◌, ◌<◌, ◌≤◌, ◌+◌, ◌*◌, ◌^◌, false, IfOk, IfSome, IsErrOf, OnErr, OnOk, length, option_map, unwrap_or};
ghost use Rattle.desk.specs.declared.fault.DeskFault.TheVariants.{Failed};
ghost use Rattle.desk.specs.Causes.{HasCause, StaysSteady};
ghost use Rattle.desk.specs.World.{to_read, shown_of, IsGiven};
ghost use Rattle.capture_events.specs.Events.{events_of, idle, steps_of, End};
ghost use Rattle.playback.specs.Front.{CutRun, Goes};
ghost use Rattle.playback.specs.Input.{beginning, behind, left_in};
ghost use Rattle.playback.specs.Limits.{most_arrival_octets, most_frames};
ghost use Rattle.playback.specs.Playing.{is_full, HasPlayed, KeepsReaders, MayWrite};

use crate::machine::Machine;
use crate::output::{Output, hand_on_full};
use crate::plays::{Ending, Play, Turn};
use crate::progress::Progress;
use crate::reader::FrameReader;
use crate::seconds::play_seconds;
use capture_io::Frame;
use desk::{Desk, DeskFault, FileId};
use std::alloc::Global;

/// Plays a capture of which no frame was read: its frames, and the seconds between them, through a
/// machine that is never full and has no work at the end. Appends lines to the report, and packets
/// to the file, if there is one.
pub fn play<D: Desk, M: Machine, R: FrameReader>(
    alloc: Global,
    desk: &mut D,
    machine: &mut M,
    reader: R,
    file: Option<FileId>,
) -> Result<Ending, DeskFault>
    requires open { R.IsOpen reader }
    requires begins { R.progress reader ≡ beginning }
    requires few { R.most ≤ most_frames }
    requires ready { M.IsReady beginning 0 machine.old }
    requires not_full { (state : M.State) → M.full state ≡ false }
    requires rests { (state : M.State) → M.Does state End (idle state) }
    ensures played { IfOk result (λ ending. IfSome (D.told desk.old) (λ w.
        HasPlayed M.Does (M.state machine.old) (option_map (λ id. id.number) file) (shown_of w)
        (left_in R.id R.run reader w) ending
        (M.state machine.new) (D.told desk.new))) }

    // After a fault, report and file have a beginning of a possible output.
    ensures cut { OnErr result (IfSome (D.told desk.old) (λ w.
        CutRun M.Does (M.state machine.old) (option_map (λ id. id.number) file) (shown_of w)
        (left_in R.id R.run reader w) (D.told desk.new))) }
    ensures cause { HasCause (D.faults desk.old) (D.faults desk.new) result }
    ensures given { D.given desk.new ≡ D.given desk.old }
    ensures steady { StaysSteady (D.steady desk.old) (D.steady desk.new)
        (IsGiven (R.id reader) to_read (D.given desk.old)
        × MayWrite (option_map (λ id. id.number) file) (D.given desk.old)) (IsErrOf result Failed) }
{
    let mut play = Play::new(alloc, reader, file);
    match play.on(alloc, desk, machine)? {
        Turn::Full => unreachable!(),
        Turn::Ended(fault) => play.end(alloc, desk, fault),
    }
}

/// Plays the seconds before a frame, then the frame. Less than a piece is left gathered. Returns
/// whether the machine is full.
pub(crate) fn play_frame<D: Desk, M: Machine>(
    alloc: Global,
    desk: &mut D,
    machine: &mut M,
    file: Option<FileId>,
    progress: Progress,
    frame: Frame,
    output: &mut Output,
) -> Result<bool, DeskFault>
    requires ready { M.IsReady progress output.old.written machine.old }
    requires not_full { M.full (M.state machine.old) ≡ false }
    requires next { frame.number ≡ progress.frames + 1 }
    requires later { unwrap_or progress.moment 0 ≤ frame.moment }
    requires most { frame.number ≤ most_frames }
    requires moment { frame.moment < 2 ^ 32 * 1000000000 }
    requires size { length frame.octets ≤ most_arrival_octets }
    ensures ready { OnOk result (M.IsReady (behind frame) output.new.written machine.new) }
    ensures full { IfOk result (λ is. is ≡ M.full (M.state machine.new)) }
    ensures goes { Goes M.Does (option_map (λ id. id.number) file)
        (M.state machine.old) (M.state machine.new) (steps_of (events_of progress.moment frame))
        output.old (D.told desk.old) result output.new (D.told desk.new) }
    ensures piece { OnOk result (is_full output.new ≡ false) }
    ensures readers { OnOk result (KeepsReaders (D.told desk.old) (D.told desk.new)) }
    ensures cause { HasCause (D.faults desk.old) (D.faults desk.new) result }
    ensures given { D.given desk.new ≡ D.given desk.old }
    ensures steady { StaysSteady (D.steady desk.old) (D.steady desk.new)
        (MayWrite (option_map (λ id. id.number) file) (D.given desk.old)) (IsErrOf result Failed) }
{
    play_seconds(alloc, desk, machine, file, progress, frame.moment, output)?;
    let is_full = machine.take(frame, output)?;
    hand_on_full(alloc, desk, file, output)?;
    Ok(is_full)
}
