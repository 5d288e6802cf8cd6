// A capture, played in rounds.
ghost use Rattle.std.specs.Prelude.{◌≡◌, ◌≤◌, [], Some, IfOk, IfSome, IsErrOf, OnErr};
ghost use Rattle.command_words.specs.Limits.{most_round_frames, most_workers};
ghost use Rattle.desk.specs.declared.fault.DeskFault.TheVariants.{Failed};
ghost use Rattle.desk.specs.Causes.{HasCause, StaysSteady};
ghost use Rattle.desk.specs.World.{to_read, to_write, shown_of, IsGiven};
ghost use Rattle.lisp_settings.specs.Lawful.{IsLawful};
ghost use Rattle.playback.specs.Front.{CutRun};
ghost use Rattle.playback.specs.Input.{beginning, left_in};
ghost use Rattle.playback.specs.Limits.{most_frames};
ghost use Rattle.playback.specs.Playing.{HasPlayed};
ghost use Rattle.sharing.specs.Gathering.{InRounds, MayPlay, state_of};
ghost use Rattle.sharing.specs.Sharing.{HasShared, HasSharedPart};

use crate::crew::Crew;
use crate::gathering::{Gathering, begun};
use crate::working::{work_last, work_round};
use desk::{Desk, DeskFault, FileId};
use forwarders::Gate;
use lisp_settings::Settings;
use playback::{Ending, FrameReader, Play, Turn};
use std::alloc::Global;
use std::sync::Wait;
use std::thread::Threads;

/// How a capture that was played in rounds ended, and the length of the journal.
#[derive(Clone, Copy)]
pub struct RoundsEnding {
    pub ending: Ending,
    pub entries: u64,
}

/// Plays the frames of a capture, of which none was read, in rounds by the settings. Reports their
/// lines, and writes their packets into the file.
///
/// The call starts threads, and waits for them. The lines and packets of a round go out once the
/// round is worked. A fault of the capture ends the round that is open.
pub fn play_rounds<R: Threads + Wait + Sync, D: Desk, G: Gate, I: FrameReader>(
    crew: &Crew<'_, R, G>,
    alloc: Global,
    desk: &mut D,
    settings: &Settings,
    reader: I,
    file: FileId,
) -> Result<RoundsEnding, DeskFault>
    requires workers { (1 ≤ crew.now.workers) × (crew.now.workers ≤ most_workers) }
    requires round { (1 ≤ crew.now.round) × (crew.now.round ≤ most_round_frames) }
    requires open { I.IsOpen reader }
    requires begins { I.progress reader ≡ beginning }
    requires few { I.most ≤ most_frames }
    requires lawful { IsLawful settings.now }
    ensures shared { IfOk result (λ ended. IfSome (D.told desk.old) (λ w.
        HasShared crew.now.round settings.now (Some file.number) (shown_of w)
        (left_in I.id I.run reader w) ended (D.told desk.new))) }

    // After a fault of the desk, or for want of memory, a beginning of the rounds' lines and
    // packets is reported and written, for some numbers that the data packets may have.
    ensures front { OnErr result (IfSome (D.told desk.old) (λ w.
        HasSharedPart crew.now.round settings.now (Some file.number) (shown_of w)
        (left_in I.id I.run reader w) (D.told desk.new))) }
    ensures cause { HasCause (D.faults desk.old) (D.faults desk.new) result }
    ensures steady { StaysSteady (D.steady desk.old) (D.steady desk.new)
        (IsGiven (I.id reader) to_read (D.given desk.old) × IsGiven file.number to_write (D.given desk.old))
        (IsErrOf result Failed) }
{
    let mut router = begun(crew, alloc, settings)?;
    let ended = play_on(crew, desk, &mut router, reader, file);
    let entries = router.closed(crew.rt);
    let ending = ended?;
    Ok(RoundsEnding { ending, entries })
}

// Plays the capture: works each round once it is full, and at the end the frames that are left.
fn play_on<R: Threads + Wait + Sync, D: Desk, G: Gate, I: FrameReader>(
    crew: &Crew<'_, R, G>,
    desk: &mut D,
    router: &mut Gathering<'_>,
    reader: I,
    file: FileId,
) -> Result<Ending, DeskFault>
    requires workers { crew.now.workers ≤ most_workers }
    requires open { I.IsOpen reader }
    requires begins { I.progress reader ≡ beginning }
    requires few { I.most ≤ most_frames }
    requires none { router.old.frames.items ≡ [] }
    requires ready { MayPlay router.old beginning 0 }
    ensures played { IfOk result (λ ending. IfSome (D.told desk.old) (λ w.
        HasPlayed InRounds (state_of router.old)
        (Some file.number) (shown_of w) (left_in I.id I.run reader w) ending
        (state_of router.new)
        (D.told desk.new))) }
    ensures cut { OnErr result (IfSome (D.told desk.old) (λ w.
        CutRun InRounds (state_of router.old)
        (Some file.number) (shown_of w) (left_in I.id I.run reader w) (D.told desk.new))) }
    ensures cause { HasCause (D.faults desk.old) (D.faults desk.new) result }
    ensures steady { StaysSteady (D.steady desk.old) (D.steady desk.new)
        (IsGiven (I.id reader) to_read (D.given desk.old) × IsGiven file.number to_write (D.given desk.old))
        (IsErrOf result Failed) }
{
    let alloc = *router.frames.allocator();
    let mut play = Play::new(alloc, reader, Some(file));
    loop {
        match play.on(alloc, desk, router)? {
            Turn::Full => work_round(crew, router, play.progress, &mut play.output)?,
            Turn::Ended(fault) => {
                work_last(crew, router, play.progress, &mut play.output)?;
                return play.end(alloc, desk, fault);
            }
        }
    }
}
