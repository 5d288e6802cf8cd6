// Captures that are read frame by frame, in any format.
ghost use Rattle.std.specs.Prelude.{◌≡◌, ℕ, List, IfOk, IfSome, IsErrOf};
ghost use Rattle.desk.specs.declared.fault.DeskFault.TheVariants.{Failed};
ghost use Rattle.desk.specs.Causes.{HasCause, StaysSteady};
ghost use Rattle.desk.specs.World.{to_read, shown, IsGiven};
ghost use Rattle.playback.specs.Input.{behind, left_in, Comes, IfFrame, InputRun, IsNext};
ghost use Rattle.playback.specs.declared.progress.Progress.{Progress};

use crate::fault::InputFault;
use capture_io::Frame;
use desk::{Desk, DeskFault};
use octets::Octets;
use std::alloc::Global;

/// The next item of a capture: a frame, its end, or its fault.
#[derive(Drop)]
pub enum Next {
    Frame(Frame),
    End,
    Fault(InputFault),
}

/// A reader of a capture, frame by frame.
pub trait FrameReader: Drop {
    ghost id: { Self → ℕ };

    /// The frames and the fault still to be read, where these octets are left of the reader's file.
    ghost run: { Self → List ℕ → InputRun };

    /// How far the reader has come: the number of frames returned, and the moment of the last one.
    ghost progress: { Self → Progress };

    /// The most frames that a reader returns.
    ghost most: { ℕ };

    /// Whether the reader has returned frames alone so far.
    ghost IsOpen: { Self → Type 0 };

    /// The next frame, the end of the file, or its fault. After an end, a fault or an error the
    /// reader mustn't be called again.
    fn next_frame<D: Desk>(&mut self, alloc: Global, desk: &mut D) -> Result<Next, DeskFault>
        requires open { IsOpen self.old }
        ensures comes { IfOk result (λ next. IfSome (D.told desk.old) (λ w.
            Comes next (left_in id run self.old w) (left_in id run self.new) (D.told desk.new))) }
        ensures frame { IfOk result (λ next. IfFrame next (IsNext most (progress self.old))) }
        ensures id { IfOk result (λ next. id self.new ≡ id self.old) }
        ensures progress { IfOk result (λ next. IfFrame next (λ f. progress self.new ≡ behind f)) }
        ensures open { IfOk result (λ next. IfFrame next (λ _. IsOpen self.new)) }

        // On any exit only the place in the file has moved.
        ensures shown { shown (D.told desk.new) ≡ shown (D.told desk.old) }
        ensures cause { HasCause (D.faults desk.old) (D.faults desk.new) result }
        ensures given { D.given desk.new ≡ D.given desk.old }
        ensures steady { StaysSteady (D.steady desk.old) (D.steady desk.new)
            (IsGiven (id self.old) to_read (D.given desk.old)) (IsErrOf result Failed) };

    /// Takes back the list of a frame that is no longer needed, for reuse by the next frame.
    fn take_back(&mut self, octets: Octets)
        requires open { IsOpen self.old }
        ensures id { id self.new ≡ id self.old }
        ensures run { run self.new ≡ run self.old }
        ensures progress { progress self.new ≡ progress self.old }
        ensures open { IsOpen self.new };
}
