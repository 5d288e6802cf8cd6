// The next frame, behind blocks that keep none.
ghost use Rattle.std.specs.Prelude.{◌≡◌, ◌≢◌, ◌≤◌, false, option_map, None, Err, IfOk, IfErr, IfSome, IsErrOf};
ghost use Rattle.octets.specs.Causes.{Rose};
ghost use Rattle.desk.specs.Causes.{StaysSteady};
ghost use Rattle.desk.specs.World.{left_of, to_read, shown, IsGiven};
ghost use Rattle.capture_ng.specs.Answers.{IsAnswer, is_outside};
ghost use Rattle.capture_ng.specs.Found.{found};
ghost use Rattle.capture_ng.specs.Reading.{IsCounted, IsNext, after_found};
ghost use Rattle.capture_ng.specs.declared.fault.NgFault.TheVariants.{Host};

use crate::NgFault;
use crate::blocks::read_block;
use crate::position::Position;
use crate::taking::take_block;
use capture_io::Frame;
use desk::{Desk, FileId};
use std::alloc::Global;

/// The next frame, or None at the end of the file.
pub fn find_frame<D: Desk>(
    alloc: Global,
    desk: &mut D,
    id: FileId,
    vlans: bool,
    at: &mut Position,
) -> Result<Option<Frame>, NgFault>
    ensures answer { IfSome (D.told desk.old) (λ w.
        IsAnswer result (found vlans at.old (left_of id.number w)).answer) }
    ensures position { IfSome (D.told desk.old) (λ w. is_outside result ≡ false →
        at.new ≡ (found vlans at.old (left_of id.number w)).position) }
    ensures told { IfOk result (λ o.
        D.told desk.new ≡ option_map (after_found id.number vlans at.old) (D.told desk.old)) }
    ensures next { IfOk result (λ o. IfSome o (IsNext vlans at.old)) }
    ensures count { IfOk result (λ o. IsCounted o at.old at.new) }
    ensures fault { IfErr result (λ f. IsCounted None at.old at.new) }
    ensures shown { shown (D.told desk.new) ≡ shown (D.told desk.old) }
    ensures given { D.given desk.new ≡ D.given desk.old }
    ensures later { D.faults desk.old ≤ D.faults desk.new }
    ensures host { IsErrOf result Host → Rose (D.faults desk.old) (D.faults desk.new) }
    ensures same { result ≢ Err Host → D.faults desk.new ≡ D.faults desk.old }
    ensures steady { StaysSteady (D.steady desk.old) (D.steady desk.new)
        (IsGiven id.number to_read (D.given desk.old)) (IsErrOf result Host) }
{
    while let Some((head, octets)) = read_block(alloc, desk, id, at)? {
        if let Some(frame) = take_block(alloc, vlans, at, head, octets)? {
            return Ok(Some(frame));
        }
    }
    Ok(None)
}
