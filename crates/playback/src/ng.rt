// A pcapng capture as the frames of a play.
use crate::fault::InputFault;
use crate::reader::{FrameReader, Next};
use capture_ng::{NgFault, NgReader};
use desk::{Desk, DeskFault};
use octets::Octets;
use std::alloc::Global;

impl FrameReader for NgReader {
    ghost use Rattle.std.specs.Prelude.{◌≡◌, None};
    ghost use Rattle.capture_ng.specs.Frames.{read_on};
    ghost use Rattle.playback.specs.Input.{input_run};
    ghost use Rattle.playback.specs.Limits.{most_records};
    ghost use Rattle.playback.specs.declared.fault.InputFault.TheVariants.{Ng};

    ghost id = { λ r. r.id };

    ghost run = { λ r left. input_run Ng (read_on r.vlans r.position left) };

    ghost progress = { λ r. record { frames = r.position.count; moment = r.position.greatest } };

    ghost most = { most_records };

    ghost IsOpen = { λ r. r.fault ≡ None };

    fn next_frame<D: Desk>(&mut self, alloc: Global, desk: &mut D) -> Result<Next, DeskFault> {
        match self.next(alloc, desk) {
            Ok(Some(frame)) => Ok(Next::Frame(frame)),
            Ok(None) => Ok(Next::End),
            Err(fault) => match fault {
                NgFault::Host => Err(DeskFault::Failed),
                NgFault::Memory => Err(DeskFault::Memory),
                own => Ok(Next::Fault(InputFault::Ng(own))),
            },
        }
    }

    // A block's list holds more than its frame, so this reader makes a list for each block.
    fn take_back(&mut self, _octets: Octets) {}
}
