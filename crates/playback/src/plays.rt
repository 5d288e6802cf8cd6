// A play of a capture, from pause to pause.
ghost use Rattle.std.specs.Prelude.{◌≡◌, ◌<◌, ◌≤◌, ℕ, false, true, IfOk, IsErrOf, OnErr, OnOk};
ghost use Rattle.desk.specs.declared.fault.DeskFault.TheVariants.{Failed};
ghost use Rattle.desk.specs.Causes.{HasCause, StaysSteady};
ghost use Rattle.desk.specs.World.{to_read, IsGiven};
ghost use Rattle.playback.specs.Front.{Breaks};
ghost use Rattle.playback.specs.Input.{beginning, left_in};
ghost use Rattle.playback.specs.Limits.{most_frames};
ghost use Rattle.playback.specs.Passing.{file_of, IfFull, IsBegun, IsBetween, IsSamePlay, PassesOn};
ghost use Rattle.playback.specs.Playing.{handed_on, is_full, MayWrite};
ghost use Rattle.playback.specs.declared.progress.Progress.{Progress};

use crate::fault::InputFault;
use crate::machine::Machine;
use crate::output::{Output, hand_on};
use crate::playing::play_frame;
use crate::progress::Progress;
use crate::reader::{FrameReader, Next};
use desk::{Desk, DeskFault, FileId};
use std::alloc::Global;

/// A play of a capture: its reader, the file for packets, if there is one, how far the play has
/// come, and the output that is gathered.
#[derive(Drop)]
pub struct Play<R> {
    pub reader: R,
    pub file: Option<FileId>,
    pub progress: Progress,
    pub output: Output,
}

/// Why a play pauses or ends.
#[derive(Clone, Copy, Debug, PartialEq, Eq)]
pub enum Turn {
    /// The machine is full: its caller must do the gathered work before the play goes on.
    Full,
    /// The capture has ended, or has a fault.
    Ended(Option<InputFault>),
}

/// How a capture ended: its fault, if it has one, the number of frames before it, and the number of
/// packets written.
#[derive(Clone, Copy)]
pub struct Ending {
    pub fault: Option<InputFault>,
    pub frames: u32,
    pub written: u64,
}

impl<R: FrameReader> Play<R> {
    /// A play of a capture of which no frame was read. Takes no memory.
    pub fn new(alloc: Global, reader: R, file: Option<FileId>) -> Play<R>
        requires open { R.IsOpen reader }
        requires begins { R.progress reader ≡ beginning }
        ensures reader { result.reader ≡ reader }
        ensures file { result.file ≡ file }
        ensures begun { IsBegun result }
        ensures between { IsBetween R.IsOpen R.progress result }
    {
        Play {
            reader,
            file,
            progress: Progress {
                frames: 0,
                moment: None,
            },
            output: Output::new(alloc),
        }
    }

    /// Plays frames, each behind the seconds before it, until the machine is full, or the capture
    /// is at its end or its fault. Gathered output goes out in pieces, lines to the report and
    /// packets to the file, so less than a piece is left gathered behind each frame.
    pub fn on<D: Desk, M: Machine>(
        &mut self,
        alloc: Global,
        desk: &mut D,
        machine: &mut M,
    ) -> Result<Turn, DeskFault>
        requires between { IsBetween R.IsOpen R.progress self.old }
        requires few { R.most ≤ most_frames }
        requires ready { M.IsReady self.old.progress self.old.output.written machine.old }
        requires not_full { M.full (M.state machine.old) ≡ false }
        ensures file { self.new.file ≡ self.old.file }
        ensures same { IfOk result (λ turn. IfFull turn (IsSamePlay R.id self.old self.new)) }
        ensures between { IfOk result (λ turn. IfFull turn (IsBetween R.IsOpen R.progress self.new)) }
        ensures ready { OnOk result (M.IsReady self.new.progress self.new.output.written machine.new) }
        ensures full { IfOk result (λ turn. IfFull turn (M.full (M.state machine.new) ≡ true)) }
        ensures more { IfOk result (λ turn. IfFull turn (self.old.progress.frames < self.new.progress.frames)) }
        ensures piece { is_full self.old.output ≡ false → OnOk result (is_full self.new.output ≡ false) }
        ensures handed { IfOk result (λ turn. IfFull turn (is_full self.new.output ≡ false)) }
        ensures passes { PassesOn M.Does (left_in R.id R.run) self.old self.new (M.state machine.old) (M.state machine.new)
            (D.told desk.old) result (D.told desk.new) }
        ensures cause { HasCause (D.faults desk.old) (D.faults desk.new) result }
        ensures given { D.given desk.new ≡ D.given desk.old }
        ensures steady { StaysSteady (D.steady desk.old) (D.steady desk.new)
            (IsGiven (R.id self.old.reader) to_read (D.given desk.old)
            × MayWrite (file_of self.old) (D.given desk.old)) (IsErrOf result Failed) }
    {
        loop {
            match self.reader.next_frame(alloc, desk)? {
                Next::Frame(frame) => {
                    let (file, before) = (self.file, self.progress);
                    let reached = Progress {
                        frames: frame.number,
                        moment: Some(frame.moment),
                    };
                    let is_full = play_frame(
                        alloc,
                        desk,
                        machine,
                        file,
                        before,
                        frame,
                        &mut self.output,
                    )?;
                    self.progress = reached;
                    if is_full {
                        return Ok(Turn::Full);
                    }
                    hand_back(machine, &mut self.reader);
                }
                Next::End => return Ok(Turn::Ended(None)),
                Next::Fault(fault) => return Ok(Turn::Ended(Some(fault))),
            }
        }
    }

    /// Ends a play: hands on the output that is still gathered, at the end of the capture or at its
    /// fault.
    pub fn end<D: Desk>(
        self,
        alloc: Global,
        desk: &mut D,
        fault: Option<InputFault>,
    ) -> Result<Ending, DeskFault>
        ensures ending { IfOk result (λ ending. ending ≡ record {
          fault = fault;
          frames = self.progress.frames;
          written = self.output.written;
        }) }
        ensures told { OnOk result (D.told desk.new
            ≡ handed_on (file_of self) self.output (D.told desk.old)) }
        ensures breaks { OnErr result (Breaks (file_of self)
            self.output (D.told desk.old) (D.told desk.new)) }
        ensures cause { HasCause (D.faults desk.old) (D.faults desk.new) result }
        ensures given { D.given desk.new ≡ D.given desk.old }
        ensures steady { StaysSteady (D.steady desk.old) (D.steady desk.new)
            (MayWrite (file_of self) (D.given desk.old)) (IsErrOf result Failed) }
    {
        let Play {
            reader: _,
            file,
            progress,
            mut output,
        } = self;
        hand_on(alloc, desk, file, &mut output)?;
        Ok(Ending {
            fault,
            frames: progress.frames,
            written: output.written,
        })
    }
}

// Hands the list of the machine's last frame back to the reader, if the machine no longer needs it.
fn hand_back<M: Machine, R: FrameReader>(machine: &mut M, reader: &mut R)
    requires open { R.IsOpen reader.old }
    ensures id { R.id reader.new ≡ R.id reader.old }
    ensures run { R.run reader.new ≡ R.run reader.old }
    ensures progress { R.progress reader.new ≡ R.progress reader.old }
    ensures open { R.IsOpen reader.new }
    ensures ready { (progress : Progress) (written : ℕ) →
        M.IsReady progress written machine.old → M.IsReady progress written machine.new }
    ensures state { M.state machine.new ≡ M.state machine.old }
{
    if let Some(octets) = machine.spare() {
        reader.take_back(octets);
    }
}
