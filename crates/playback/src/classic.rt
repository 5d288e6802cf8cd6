// A classic capture as the frames of a play.
ghost use Rattle.std.specs.Prelude.{◌≡◌, false};
ghost use Rattle.std.specs.Result.{MatchResult};
ghost use Rattle.capture_io.specs.Answers.{fault_of, is_outside_fault};

use crate::fault::InputFault;
use crate::reader::{FrameReader, Next};
use capture_io::{CaptureFault, CaptureReader};
use desk::{Desk, DeskFault};
use octets::Octets;
use std::alloc::Global;

impl FrameReader for CaptureReader {
    ghost use Rattle.std.specs.Prelude.{◌≡◌, None};
    ghost use Rattle.capture_io.specs.Frames.{read_on};
    ghost use Rattle.playback.specs.Input.{input_run};
    ghost use Rattle.playback.specs.Limits.{most_records};
    ghost use Rattle.playback.specs.declared.fault.InputFault.TheVariants.{Classic};

    ghost id = { λ r. r.id };

    ghost run = { λ r left. input_run Classic (read_on r.format r.position left) };

    ghost progress = { λ r. record { frames = r.position.count; moment = r.position.greatest } };

    ghost most = { most_records };

    ghost IsOpen = { λ r. r.fault ≡ None };

    fn next_frame<D: Desk>(&mut self, alloc: Global, desk: &mut D) -> Result<Next, DeskFault> {
        match self.next(alloc, desk) {
            Ok(Some(frame)) => Ok(Next::Frame(frame)),
            Ok(None) => Ok(Next::End),
            Err(fault) => Ok(Next::Fault(InputFault::Classic(own_fault(fault)?))),
        }
    }

    fn take_back(&mut self, octets: Octets) {
        self.take_back(octets);
    }
}

/// Returns a fault of the file as it is; a fault of the desk or of memory is the error.
pub fn own_fault(fault: CaptureFault) -> Result<CaptureFault, DeskFault>
    ensures { MatchResult result (λ own. (own ≡ fault) × (is_outside_fault fault ≡ false))
        (λ outside. fault ≡ fault_of outside) }
{
    match fault {
        CaptureFault::Host => Err(DeskFault::Failed),
        CaptureFault::Memory => Err(DeskFault::Memory),
        own => Ok(own),
    }
}
