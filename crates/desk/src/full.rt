// Reading until a buffer is full.
ghost use Rattle.std.specs.Prelude.{◌≡◌, ◌≤◌, ◌<◌, ℕ, length, option_map, IfOk, IfSome, IsErrOf, OnErr};
ghost use Rattle.desk.specs.declared.fault.DeskFault.TheVariants.{Failed};
ghost use Rattle.desk.specs.Causes.{HasCause, StaysSteady};
ghost use Rattle.desk.specs.World.{left_of, after_read, to_read, Fills, IsGiven, shown};

use crate::{Desk, DeskFault, FileId};
use std::alloc::Global;

/// Fills the buffer from a file, as far as the file goes, however few octets each read returns.
/// Returns how many octets were read.
pub fn read_full<D: Desk>(
    alloc: Global,
    desk: &mut D,
    id: FileId,
    buf: &mut [u8],
) -> Result<usize, DeskFault>
    ensures bound { IfOk result (λ n. n ≤ length buf.new) }
    ensures octets { IfOk result (λ n.
        IfSome (D.told desk.old) (λ w. Fills (left_of id.number w) n buf.new)) }
    ensures told { IfOk result (λ n.
        D.told desk.new ≡ option_map (after_read id.number n) (D.told desk.old)) }
    ensures given { D.given desk.new ≡ D.given desk.old }

    // On any exit only the place in the file has moved.
    ensures shown { shown (D.told desk.new) ≡ shown (D.told desk.old) }
    ensures cause { HasCause (D.faults desk.old) (D.faults desk.new) result }
    ensures steady { StaysSteady (D.steady desk.old) (D.steady desk.new)
        (IsGiven id.number to_read (D.given desk.old)) (IsErrOf result Failed) }
{
    let mut filled = 0usize;
    while filled < buf.len() {
        let n = desk.read_file(alloc, id, &mut buf[filled..])?;
        if n == 0 {
            break;
        }
        filled += n;
    }
    Ok(filled)
}
