// The show command: the lines of each frame of a capture.
ghost use Rattle.std.specs.Prelude.{◌≡◌, false, IfOk, IfSome, IsErrOf, IsTrue, OnErr};
ghost use Rattle.desk.specs.declared.fault.DeskFault.TheVariants.{Failed};
ghost use Rattle.desk.specs.Causes.{HasCause, StaysSteady};
ghost use Rattle.desk.specs.World.{content, to_read, shown, shown_of, IsGiven, IsThere};
ghost use Rattle.command_words.specs.declared.intake.InputFormat.TheVariants.{Classic};
ghost use Rattle.capture_events.specs.Events.{Determined};
ghost use Rattle.playback.specs.Input.{beginning};
ghost use Rattle.replay.specs.Answer.{after_opening, is_end, messages_shown, Gives};
ghost use Rattle.replay.specs.Front.{part_after_opening, shown_part, EndsFront};
ghost use Rattle.replay.specs.Opening.{id_of, opened, progress_of, run_in, IsOpen};
ghost use Rattle.replay.specs.Show.{showing};

use crate::Status;
use crate::frame_text::push_shown;
use crate::input::{Input, open_input};
use crate::last_lines::{close, count_line, refuse_capture};
use capture_io::Frame;
use command_words::InputFormat;
use desk::{Desk, DeskFault};
use octets::{NoMemory, Octets};
use playback::{Machine, Output, play};
use std::alloc::Global;

/// A machine that shows a capture, and keeps no more of a frame than its octets' list.
#[derive(Drop)]
struct Show {
    alloc: Global,
    /// The octets' list of the frame that was taken last, for the reader to use again.
    spare: Option<Octets>,
}

impl Machine for Show {
    ghost State = { Unit {0} };

    ghost state = { λ _. tt };

    ghost Does = { Determined showing };

    ghost full = { λ _. false };

    ghost IsReady = { λ _ _ _. Unit {0} };

    fn tick(&mut self, _second: u32, _output: &mut Output) -> Result<(), NoMemory> {
        Ok(())
    }

    fn take(&mut self, frame: Frame, output: &mut Output) -> Result<bool, NoMemory> {
        push_shown(self.alloc, &frame, &mut output.lines)?;
        self.spare = Some(frame.octets);
        Ok(false)
    }

    fn spare(&mut self) -> Option<Octets> {
        self.spare.take()
    }
}

/// Reports the lines of each frame of the classic capture of that name, and returns the status.
pub(crate) fn show_capture<D: Desk>(
    alloc: Global,
    desk: &mut D,
    input: &str,
) -> Result<Status, DeskFault>
    ensures answer { IfOk result (λ s. IfSome (D.told desk.old) (λ w.
        Gives (after_opening messages_shown (opened Classic (content input.now w.files)))
        s (shown_of w) (shown (D.told desk.new)))) }
    ensures end { IfOk result (λ s. IsTrue (is_end s)) }
    ensures front { OnErr result (IfSome (D.told desk.old) (λ w.
        let what = opened Classic (content input.now w.files) in
        EndsFront (after_opening messages_shown what)
        (part_after_opening shown_part what) (shown_of w) (D.told desk.new))) }
    ensures cause { HasCause (D.faults desk.old) (D.faults desk.new) result }
    ensures steady { StaysSteady (D.steady desk.old) (D.steady desk.new)
        (IsThere input.now (D.told desk.old)) (IsErrOf result Failed) }
{
    match open_input(alloc, desk, InputFormat::Classic, input)? {
        Ok(reader) => show_frames(alloc, desk, reader),
        Err(fault) => refuse_capture(alloc, desk, fault),
    }
}

fn show_frames<D: Desk>(alloc: Global, desk: &mut D, reader: Input) -> Result<Status, DeskFault>
    requires open { IsOpen reader }
    requires begins { progress_of reader ≡ beginning }
    ensures answer { IfOk result (λ s. IfSome (D.told desk.old) (λ w.
        Gives (messages_shown (run_in reader w)) s (shown_of w) (shown (D.told desk.new)))) }
    ensures end { IfOk result (λ s. IsTrue (is_end s)) }
    ensures front { OnErr result (IfSome (D.told desk.old) (λ w.
        EndsFront (messages_shown (run_in reader w)) (shown_part (run_in reader w))
        (shown_of w) (D.told desk.new))) }
    ensures cause { HasCause (D.faults desk.old) (D.faults desk.new) result }
    ensures steady { StaysSteady (D.steady desk.old) (D.steady desk.new)
        (IsGiven (id_of reader) to_read (D.given desk.old)) (IsErrOf result Failed) }
{
    let mut show = Show { alloc, spare: None };
    let ending = play(alloc, desk, &mut show, reader, None)?;
    let line = count_line(alloc, ending.frames)?;
    close(alloc, desk, ending.fault, line.as_slice())
}
