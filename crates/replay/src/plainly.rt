// The replay of a capture by the plain router.
ghost use Rattle.std.specs.Prelude.{◌≡◌, ◌≢◌, false, ◌≤◌, ◌+◌, ◌*◌, unwrap_or, IfOk, IfSome, IsErrOf, OnErr};
ghost use Rattle.desk.specs.declared.fault.DeskFault.TheVariants.{Failed};
ghost use Rattle.desk.specs.Causes.{HasCause, StaysSteady};
ghost use Rattle.desk.specs.World.{to_read, shown, shown_of, IsGiven};
ghost use Rattle.lisp_settings.specs.Lawful.{IsLawful};
ghost use Rattle.capture_events.specs.Events.{second_of, Determined};
ghost use Rattle.capture_io.specs.Reading as reading;
ghost use Rattle.auditing.specs.Auditing.{run_in};
ghost use Rattle.playback.specs.Input.{beginning, left_in};
ghost use Rattle.playback.specs.Limits.{most_frames};
ghost use Rattle.router_model.specs.Limits.{most_heard, most_mappings, most_ticked};
ghost use Rattle.router_model.specs.Parts.{Parts, table};
ghost use Rattle.router_model.specs.Plain.{Router, after_event};
ghost use Rattle.router_model.specs.Standing.{without_ups};
ghost use Rattle.replay.specs.Taking.{most_packets, router_of};
ghost use Rattle.replay.specs.Answer.{replayed};
ghost use Rattle.replay.specs.Audit.{AuditsAs};
ghost use Rattle.replay.specs.Front.{replayed_part, EndsFront};
ghost use Rattle.replay.specs.Readings.{HasReplayed};

use crate::counts::Counts;
use crate::output_file::make_output;
use crate::taking::{take_frame, take_second};
use auditing::{Audited, audit_frames};
use capture_io::{CaptureReader, Frame};
use desk::{Desk, DeskFault};
use lisp_settings::Settings;
use octets::{NoMemory, Octets};
use playback::{FrameReader, Machine, Output, play};
use router_core::Table;
use std::alloc::Global;

/// A router that replays a capture, frame by frame.
struct Replay<'a> {
    settings: &'a Settings,
    table: Table,
    /// The octets' list of the frame that was taken last, for the reader to use again.
    spare: Option<Octets>,
}

impl<'a> Machine for Replay<'a> {
    ghost State = { Router Parts };

    ghost state = { λ replay. router_of replay.settings.now replay.table.parts };

    ghost Does = { Determined (after_event table) };

    ghost full = { λ _. false };

    // Ready: the table has the own locators of the settings, whichever are up, and a moment no
    // later than the last frame's. Its entries are at most as many as there may be static mappings,
    // and as the frames and seconds so far may add; the packets written are at most as many as
    // these may send.
    ghost IsReady = { λ progress written replay. IsLawful replay.settings.now
        × ((without_ups replay.table.parts.own ≡ without_ups replay.settings.now.locators)
        × ((replay.table.parts.now ≤ unwrap_or progress.moment 0)
        × ((replay.table.parts.count
        ≤ most_mappings + most_heard * progress.frames + most_ticked * second_of (unwrap_or progress.moment 0))
        × (written ≤ most_packets progress)))) };

    fn tick(&mut self, second: u32, output: &mut Output) -> Result<(), NoMemory> {
        take_second(self.settings, &mut self.table, second, output)
    }

    fn take(&mut self, frame: Frame, output: &mut Output) -> Result<bool, NoMemory> {
        take_frame(self.settings, &mut self.table, &frame, output)?;
        self.spare = Some(frame.octets);
        Ok(false)
    }

    fn spare(&mut self) -> Option<Octets> {
        self.spare.take()
    }
}

/// Replays a capture, of which no frame was read, by the plain router: makes the output, reports
/// all lines but the last, and returns the counts.
pub(crate) fn replay_plainly<D: Desk, R: FrameReader>(
    alloc: Global,
    desk: &mut D,
    settings: &Settings,
    reader: R,
    output: &str,
) -> Result<Counts, DeskFault>
    requires open { R.IsOpen reader }
    requires begins { R.progress reader ≡ beginning }
    requires few { R.most ≤ most_frames }
    requires lawful { IsLawful settings.now }
    ensures answer { IfOk result (λ counts. IfSome (D.told desk.old) (λ w.
        HasReplayed settings.now output.now (left_in R.id R.run reader w) counts
        (shown_of w) (shown (D.told desk.new)))) }
    ensures front { OnErr result (IfSome (D.told desk.old) (λ w.
        EndsFront (replayed settings.now output.now (left_in R.id R.run reader w))
        (replayed_part settings.now output.now (left_in R.id R.run reader w)) (shown_of w) (D.told desk.new))) }
    ensures cause { HasCause (D.faults desk.old) (D.faults desk.new) result }
    ensures steady { StaysSteady (D.steady desk.old) (D.steady desk.new)
        (IsGiven (R.id reader) to_read (D.given desk.old)) (IsErrOf result Failed) }
{
    let file = make_output(alloc, desk, output)?;
    let table = Table::new(alloc, settings)?;
    let mut router = Replay {
        settings,
        table,
        spare: None,
    };
    let ended = play(alloc, desk, &mut router, reader, Some(file));
    let entries = entries_of(router);
    let ending = ended?;
    Ok(Counts {
        fault: ending.fault,
        frames: ending.frames,
        written: ending.written,
        entries,
    })
}

/// Compares the packets that the plain router sends for the capture `input` with the records of the
/// capture `sent`. No record was read of either.
pub(crate) fn audit_plainly<D: Desk>(
    alloc: Global,
    desk: &mut D,
    settings: &Settings,
    input: CaptureReader,
    sent: CaptureReader,
) -> Result<Audited, DeskFault>
    requires input { input ≡ reading.beginning input.id input.format }
    requires sent { sent ≡ reading.beginning sent.id sent.format }
    requires apart { input.id ≢ sent.id }
    requires lawful { IsLawful settings.now }
    ensures audited { IfOk result (λ audited. IfSome (D.told desk.old) (λ w.
        AuditsAs settings.now (run_in input w) (run_in sent w) audited)) }
    ensures shown { shown (D.told desk.new) ≡ shown (D.told desk.old) }
    ensures cause { HasCause (D.faults desk.old) (D.faults desk.new) result }
    ensures steady { StaysSteady (D.steady desk.old) (D.steady desk.new)
        (IsGiven input.id to_read (D.given desk.old) × IsGiven sent.id to_read (D.given desk.old))
        (IsErrOf result Failed) }
{
    let table = Table::new(alloc, settings)?;
    let mut router = Replay {
        settings,
        table,
        spare: None,
    };
    let audited = audit_frames(alloc, desk, &mut router, input, sent);
    entries_of(router);
    audited
}

// Ends a router, and returns the length of its journal. A router ends here, so that no later exit
// has a table to drop.
fn entries_of(router: Replay<'_>) -> u64
    ensures { result ≡ router.entry.table.parts.count }
{
    let Replay {
        settings: _,
        table,
        spare: _,
    } = router;
    table.closed()
}
