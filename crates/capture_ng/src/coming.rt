// Reads of a block's octets, some into memory and others passed over.
ghost use Rattle.std.specs.Prelude.{◌≡◌, ◌≤◌, ◌+◌, ◌-◌, ◌++◌, length, take, option_map, IfOk, IfSome, IsErrOf};
ghost use Rattle.desk.specs.declared.fault.DeskFault.TheVariants.{Failed};
ghost use Rattle.desk.specs.Causes.{HasCause, StaysSteady};
ghost use Rattle.desk.specs.World.{left_of, after_read, to_read, shown, IsGiven};
ghost use Rattle.capture_ng.specs.Blocks.{last_number};
ghost use Rattle.capture_ng.specs.Coming.{HasCome};

use capture_io::Order;
use desk::{Desk, DeskFault, FileId, read_full};
use std::alloc::Global;

// The most octets in memory at a time of those that are passed over.
const PIECE: usize = 4096;

/// Fills a part of a buffer from the file, as far as the file goes, and returns how many octets
/// were read.
pub fn fill_part<D: Desk>(
    alloc: Global,
    desk: &mut D,
    id: FileId,
    buf: &mut [u8],
    from: usize,
    to: usize,
) -> Result<usize, DeskFault>
    requires part { from ≤ to }
    requires within { to ≤ length buf.old }
    ensures octets { IfOk result (λ n. IfSome (D.told desk.old) (λ w.
        take (from + n) buf.new ≡ take from buf.old ++ take (to - from) (left_of id.number w))) }
    ensures front { IfOk result (λ n. take from buf.new ≡ take from buf.old) }
    ensures most { IfOk result (λ n. n ≤ to - from) }
    ensures len { length buf.new ≡ length buf.old }
    ensures told { IfOk result (λ n.
        D.told desk.new ≡ option_map (after_read id.number n) (D.told desk.old)) }
    ensures shown { shown (D.told desk.new) ≡ shown (D.told desk.old) }
    ensures given { D.given desk.new ≡ D.given desk.old }
    ensures cause { HasCause (D.faults desk.old) (D.faults desk.new) result }
    ensures steady { StaysSteady (D.steady desk.old) (D.steady desk.new)
        (IsGiven id.number to_read (D.given desk.old)) (IsErrOf result Failed) }
{
    let n = read_full(alloc, desk, id, &mut buf[from..to])?;
    Ok(n)
}

/// The octets `first`, followed by the next `size` octets of the file, or fewer where it ends
/// before.
pub fn read_behind<D: Desk>(
    alloc: Global,
    desk: &mut D,
    id: FileId,
    first: &[u8],
    size: u32,
) -> Result<Vec<u8>, DeskFault>
    requires { length first.now ≤ 12 }
    ensures octets { IfOk result (λ o. IfSome (D.told desk.old) (λ w.
        o.items ≡ first.now ++ take size (left_of id.number w))) }
    ensures most { IfOk result (λ o. length o.items ≤ length first.now + size) }
    ensures told { IfOk result (λ o. D.told desk.new
        ≡ option_map (after_read id.number (length o.items - length first.now)) (D.told desk.old)) }
    ensures shown { shown (D.told desk.new) ≡ shown (D.told desk.old) }
    ensures given { D.given desk.new ≡ D.given desk.old }
    ensures cause { HasCause (D.faults desk.old) (D.faults desk.new) result }
    ensures steady { StaysSteady (D.steady desk.old) (D.steady desk.new)
        (IsGiven id.number to_read (D.given desk.old)) (IsErrOf result Failed) }
{
    let place = first.len();
    let whole = place + size as usize;
    let mut octets = Vec::with_capacity(alloc, whole)?;
    octets.extend_from_slice(first)?;
    octets.resize(whole, 0)?;
    let n = fill_part(alloc, desk, id, octets.as_mut_slice(), place, whole)?;
    octets.truncate(place + n);
    Ok(octets)
}

/// Reads past the next `size` octets, and returns the number in the last four of them, or None
/// where the file ends before.
pub fn read_end<D: Desk>(
    alloc: Global,
    desk: &mut D,
    id: FileId,
    order: Order,
    size: u32,
) -> Result<Option<u32>, DeskFault>
    requires { 4 ≤ size }
    ensures number { IfOk result (λ end. IfSome (D.told desk.old) (λ w.
        end ≡ last_number order size (left_of id.number w))) }
    ensures told { IfOk result (λ end. IfSome end (λ number.
        D.told desk.new ≡ option_map (after_read id.number size) (D.told desk.old))) }
    ensures shown { shown (D.told desk.new) ≡ shown (D.told desk.old) }
    ensures given { D.given desk.new ≡ D.given desk.old }
    ensures cause { HasCause (D.faults desk.old) (D.faults desk.new) result }
    ensures steady { StaysSteady (D.steady desk.old) (D.steady desk.new)
        (IsGiven id.number to_read (D.given desk.old)) (IsErrOf result Failed) }
{
    let passed = skip(alloc, desk, id, size - 4)?;
    let mut last = [0u8; 4];
    let n = read_full(alloc, desk, id, &mut last)?;
    if passed + (n as u32) < size {
        return Ok(None);
    }
    Ok(Some(order.number_32(&last, 0)))
}

/// Reads past the next `size` octets, or fewer where the file ends before, and returns how many.
pub fn skip<D: Desk>(alloc: Global, desk: &mut D, id: FileId, size: u32) -> Result<u32, DeskFault>
    ensures most { IfOk result (λ n. n ≤ size) }
    ensures come { IfOk result (λ n.
        HasCome id.number size n (D.told desk.old) (D.told desk.new)) }
    ensures shown { shown (D.told desk.new) ≡ shown (D.told desk.old) }
    ensures given { D.given desk.new ≡ D.given desk.old }
    ensures cause { HasCause (D.faults desk.old) (D.faults desk.new) result }
    ensures steady { StaysSteady (D.steady desk.old) (D.steady desk.new)
        (IsGiven id.number to_read (D.given desk.old)) (IsErrOf result Failed) }
{
    let mut passed = 0u32;
    while passed < size {
        let n = skip_piece(alloc, desk, id, size - passed)?;
        if n == 0 {
            break;
        }
        passed += n;
    }
    Ok(passed)
}

// Reads past the next piece of at most `size` octets, and returns how many; 0 only at the file's
// end.
fn skip_piece<D: Desk>(alloc: Global, desk: &mut D, id: FileId, size: u32) -> Result<u32, DeskFault>
    requires { 1 ≤ size }
    ensures most { IfOk result (λ n. n ≤ size) }
    ensures told { IfOk result (λ n.
        D.told desk.new ≡ option_map (after_read id.number n) (D.told desk.old)) }
    ensures count { IfOk result (λ n. IfSome (D.told desk.old) (λ w.
        (n ≤ length (left_of id.number w)) × (n ≡ 0 → length (left_of id.number w) ≡ 0))) }
    ensures shown { shown (D.told desk.new) ≡ shown (D.told desk.old) }
    ensures given { D.given desk.new ≡ D.given desk.old }
    ensures cause { HasCause (D.faults desk.old) (D.faults desk.new) result }
    ensures steady { StaysSteady (D.steady desk.old) (D.steady desk.new)
        (IsGiven id.number to_read (D.given desk.old)) (IsErrOf result Failed) }
{
    let mut piece = [0u8; PIECE];
    let n = read_full(alloc, desk, id, &mut piece[..PIECE.min(size as usize)])?;
    Ok(n as u32)
}
