// The replay command: by a settings file, with forwarders or without.
ghost use Rattle.std.specs.Prelude.{◌≡◌, ◌≤◌, Ok, IfOk, IfSome, IsErrOf, IsTrue, OnErr};
ghost use Rattle.desk.specs.declared.fault.DeskFault.TheVariants.{Failed};
ghost use Rattle.desk.specs.Causes.{HasCause, StaysSteady};
ghost use Rattle.desk.specs.World.{content, to_read, shown, shown_of, IsGiven, IsThere};
ghost use Rattle.lisp_settings.specs.Lawful.{IsLawful};
ghost use Rattle.playback.specs.Input.{beginning, left_in};
ghost use Rattle.playback.specs.Limits.{most_frames};
ghost use Rattle.replay.specs.Answer.{is_end, is_of_form};
ghost use Rattle.replay.specs.Opening.{arriving_at, id_of, progress_of, run_in, IsOpen};
ghost use Rattle.replay.specs.Owed.{AreReplayed};
ghost use Rattle.replay.specs.Readings.{HasReplayedFile, HasReplayedFor};
ghost use Rattle.replay.specs.Shared.{GivesFor, GivesOf, MayWork};
ghost use Rattle.replay.specs.SharedFront.{EndsFor, EndsOf};
ghost use Rattle.replay.specs.Splitting.{taken_run};

use crate::Status;
use crate::captures::ReplayCaptures;
use crate::counts::Counts;
use crate::input::{Input, open_input};
use crate::last_lines::{close, end_line, refuse_capture, refuse_settings};
use crate::output_file::make_output;
use crate::plainly::replay_plainly;
use crate::settings_file::load_settings;
use crate::splitting::Splitting;
use desk::{Desk, DeskFault};
use lisp_settings::Settings;
use playback::{FrameReader, InputFault};
use sharing::{Crew, Gate, play_rounds};
use std::alloc::Global;
use std::sync::Wait;
use std::thread::Threads;

/// Replays a capture into the output, by the settings in the file of that name. Reports all lines,
/// and returns the status.
pub(crate) fn replay_capture<R: Threads + Wait + Sync, D: Desk, G: Gate>(
    crew: &Crew<'_, R, G>,
    alloc: Global,
    desk: &mut D,
    settings: &str,
    captures: &ReplayCaptures<'_>,
) -> Result<Status, DeskFault>
    requires crew { MayWork crew.now.workers crew.now.round }
    ensures answer { IfOk result (λ s. IfSome (D.told desk.old) (λ w.
        GivesFor crew.now.workers crew.now.round captures.now.output.now
        (arriving_at captures.now w.files) (content settings.now w.files)
        s (shown_of w) (shown (D.told desk.new)))) }
    ensures form { IfOk result (λ s. IsTrue (is_of_form s)) }
    ensures front { OnErr result (IfSome (D.told desk.old) (λ w.
        EndsFor crew.now.workers crew.now.round captures.now.output.now
        (arriving_at captures.now w.files) (content settings.now w.files)
        (shown_of w) (D.told desk.new))) }
    ensures cause { HasCause (D.faults desk.old) (D.faults desk.new) result }
    ensures steady { StaysSteady (D.steady desk.old) (D.steady desk.new)
        (AreReplayed settings.now captures.now.input.now (D.told desk.old)) (IsErrOf result Failed) }
{
    match load_settings(alloc, desk, settings)? {
        Ok(settings) => replay_by(crew, alloc, desk, &settings, captures),
        Err(fault) => refuse_settings(alloc, desk, &fault),
    }
}

// Replays a capture into the output, by lawful settings. Reports all lines, and returns the status.
fn replay_by<R: Threads + Wait + Sync, D: Desk, G: Gate>(
    crew: &Crew<'_, R, G>,
    alloc: Global,
    desk: &mut D,
    settings: &Settings,
    captures: &ReplayCaptures<'_>,
) -> Result<Status, DeskFault>
    requires crew { MayWork crew.now.workers crew.now.round }
    requires lawful { IsLawful settings.now }
    ensures answer { IfOk result (λ s. IfSome (D.told desk.old) (λ w.
        GivesOf crew.now.workers crew.now.round settings.now captures.now.output.now
        (arriving_at captures.now w.files settings.now) s (shown_of w) (shown (D.told desk.new)))) }
    ensures end { IfOk result (λ s. IsTrue (is_end s)) }
    ensures front { OnErr result (IfSome (D.told desk.old) (λ w.
        EndsOf crew.now.workers crew.now.round settings.now captures.now.output.now
        (arriving_at captures.now w.files settings.now) (shown_of w) (D.told desk.new))) }
    ensures cause { HasCause (D.faults desk.old) (D.faults desk.new) result }
    ensures steady { StaysSteady (D.steady desk.old) (D.steady desk.new)
        (IsThere captures.now.input.now (D.told desk.old)) (IsErrOf result Failed) }
{
    match replay_file(crew, alloc, desk, settings, captures)? {
        Ok(counts) => {
            let line = end_line(alloc, counts.frames, counts.written, counts.entries)?;
            close(alloc, desk, counts.fault, line.as_slice())
        }
        Err(fault) => refuse_capture(alloc, desk, fault),
    }
}

/// Replays a capture into the output, and reports all lines but the last. Returns the counts; or
/// the fault of the capture's header, with no line reported and no output made.
pub(crate) fn replay_file<R: Threads + Wait + Sync, D: Desk, G: Gate>(
    crew: &Crew<'_, R, G>,
    alloc: Global,
    desk: &mut D,
    settings: &Settings,
    captures: &ReplayCaptures<'_>,
) -> Result<Result<Counts, InputFault>, DeskFault>
    requires crew { MayWork crew.now.workers crew.now.round }
    requires lawful { IsLawful settings.now }
    ensures answer { IfOk result (λ counts. IfSome (D.told desk.old) (λ w.
        HasReplayedFile crew.now.workers crew.now.round settings.now captures.now.output.now
        (arriving_at captures.now w.files settings.now) counts (shown_of w) (shown (D.told desk.new)))) }
    ensures front { OnErr result (IfSome (D.told desk.old) (λ w.
        EndsOf crew.now.workers crew.now.round settings.now captures.now.output.now
        (arriving_at captures.now w.files settings.now) (shown_of w) (D.told desk.new))) }
    ensures cause { HasCause (D.faults desk.old) (D.faults desk.new) result }
    ensures steady { StaysSteady (D.steady desk.old) (D.steady desk.new)
        (IsThere captures.now.input.now (D.told desk.old)) (IsErrOf result Failed) }
{
    match open_input(alloc, desk, captures.intake.format, captures.input)? {
        Ok(reader) => {
            let counts = replay_taken(crew, alloc, desk, settings, captures, reader)?;
            Ok(Ok(counts))
        }
        Err(fault) => Ok(Err(fault)),
    }
}

// Replays an open capture into the output, with its large packets split or not, and reports all
// lines but the last. Returns the counts.
fn replay_taken<R: Threads + Wait + Sync, D: Desk, G: Gate>(
    crew: &Crew<'_, R, G>,
    alloc: Global,
    desk: &mut D,
    settings: &Settings,
    captures: &ReplayCaptures<'_>,
    reader: Input,
) -> Result<Counts, DeskFault>
    requires crew { MayWork crew.now.workers crew.now.round }
    requires open { IsOpen reader }
    requires begins { progress_of reader ≡ beginning }
    requires lawful { IsLawful settings.now }
    ensures answer { IfOk result (λ counts. IfSome (D.told desk.old) (λ w.
        HasReplayedFor crew.now.workers crew.now.round settings.now captures.now.output.now
        (taken_run captures.now.intake.split settings.now (run_in reader w))
        counts (shown_of w) (shown (D.told desk.new)))) }
    ensures front { OnErr result (IfSome (D.told desk.old) (λ w.
        EndsOf crew.now.workers crew.now.round settings.now captures.now.output.now
        (Ok (taken_run captures.now.intake.split settings.now (run_in reader w)))
        (shown_of w) (D.told desk.new))) }
    ensures cause { HasCause (D.faults desk.old) (D.faults desk.new) result }
    ensures steady { StaysSteady (D.steady desk.old) (D.steady desk.new)
        (IsGiven (id_of reader) to_read (D.given desk.old)) (IsErrOf result Failed) }
{
    if captures.intake.split {
        let reader = Splitting::new(settings, reader);
        return replay_frames(crew, alloc, desk, settings, reader, captures.output);
    }
    replay_frames(crew, alloc, desk, settings, reader, captures.output)
}

// Replays a capture, of which no frame was read, into the output, by the plain router or in rounds
// with forwarders, and reports all lines but the last. Returns the counts.
fn replay_frames<R: Threads + Wait + Sync, D: Desk, G: Gate, I: FrameReader>(
    crew: &Crew<'_, R, G>,
    alloc: Global,
    desk: &mut D,
    settings: &Settings,
    reader: I,
    output: &str,
) -> Result<Counts, DeskFault>
    requires crew { MayWork crew.now.workers crew.now.round }
    requires open { I.IsOpen reader }
    requires begins { I.progress reader ≡ beginning }
    requires few { I.most ≤ most_frames }
    requires lawful { IsLawful settings.now }
    ensures answer { IfOk result (λ counts. IfSome (D.told desk.old) (λ w.
        HasReplayedFor crew.now.workers crew.now.round settings.now output.now
        (left_in I.id I.run reader w) counts (shown_of w) (shown (D.told desk.new)))) }
    ensures front { OnErr result (IfSome (D.told desk.old) (λ w.
        EndsOf crew.now.workers crew.now.round settings.now output.now
        (Ok (left_in I.id I.run reader w)) (shown_of w) (D.told desk.new))) }
    ensures cause { HasCause (D.faults desk.old) (D.faults desk.new) result }
    ensures steady { StaysSteady (D.steady desk.old) (D.steady desk.new)
        (IsGiven (I.id reader) to_read (D.given desk.old)) (IsErrOf result Failed) }
{
    if crew.workers == 0 {
        return replay_plainly(alloc, desk, settings, reader, output);
    }
    let file = make_output(alloc, desk, output)?;
    let ended = play_rounds(crew, alloc, desk, settings, reader, file)?;
    Ok(Counts {
        fault: ended.ending.fault,
        frames: ended.ending.frames,
        written: ended.ending.written,
        entries: ended.entries,
    })
}
