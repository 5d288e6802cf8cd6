// Blocks of a pcapng file, read to their ends.
ghost use Rattle.std.specs.Prelude.{◌≡◌, ◌≢◌, ◌≤◌, ◌+◌, ◌-◌, ◌++◌, length, take, option_map, IfOk, IfErr, IfSome, IsErrOf, IsTrue, MatchOption, None, Some, Err, [], false};
ghost use Rattle.octets.specs.Causes.{Rose};
ghost use Rattle.desk.specs.declared.fault.DeskFault.TheVariants.{Failed};
ghost use Rattle.desk.specs.Causes.{HasCause, StaysSteady};
ghost use Rattle.desk.specs.World.{left_of, after_read, to_read, shown, IsGiven};
ghost use Rattle.capture_ng.specs.Answers.{is_outside_fault};
ghost use Rattle.capture_ng.specs.Blocks.{is_read, last_number};
ghost use Rattle.capture_ng.specs.Faults.{end_fault};
ghost use Rattle.capture_ng.specs.Held.{IsHeld, IsFront, next_fault, block_size};
ghost use Rattle.capture_ng.specs.declared.fault.NgFault.TheVariants.{Host};

use crate::NgFault;
use crate::bodies::whole_fault;
use crate::coming::{read_behind, read_end};
use crate::first::{First, read_first};
use crate::head::Head;
use crate::heads::{is_read, read_head};
use crate::position::Position;
use desk::{Desk, DeskFault, FileId};
use std::alloc::Global;

/// The next block, read to its end: its head, and all of its octets where its body is read. None at
/// the end of the file.
pub fn read_block<D: Desk>(
    alloc: Global,
    desk: &mut D,
    id: FileId,
    at: &Position,
) -> Result<Option<(Head, Vec<u8>)>, NgFault>
    ensures front { IfOk result (λ o. IfSome (D.told desk.old) (λ w.
        MatchOption o ((left_of id.number w ≡ []) × (None ≡ end_fault at.now))
        (λ block. IsFront at.now (left_of id.number w) block.0 block.1.items))) }
    ensures held { IfOk result (λ o. IfSome o (λ block. IsHeld at.now block.0 block.1.items)) }
    ensures fault { IfErr result (λ f. is_outside_fault f ≡ false →
        IfSome (D.told desk.old) (λ w. Some f ≡ next_fault at.now (left_of id.number w))) }
    ensures told { IfOk result (λ o.
        D.told desk.new ≡ option_map (after_read id.number (block_size o)) (D.told desk.old)) }
    ensures shown { shown (D.told desk.new) ≡ shown (D.told desk.old) }
    ensures given { D.given desk.new ≡ D.given desk.old }
    ensures later { D.faults desk.old ≤ D.faults desk.new }
    ensures host { IsErrOf result Host → Rose (D.faults desk.old) (D.faults desk.new) }
    ensures same { result ≢ Err Host → D.faults desk.new ≡ D.faults desk.old }
    ensures steady { StaysSteady (D.steady desk.old) (D.steady desk.new)
        (IsGiven id.number to_read (D.given desk.old)) (IsErrOf result Host) }
{
    let first = read_first(alloc, desk, id)?;
    if first.len() == 0 {
        return at_end(at);
    }
    let head = read_head(at, first.as_slice())?;
    let Rest { octets, last } = read_rest(alloc, desk, id, head, &first)?;
    if let Some(fault) = whole_fault(at, head, last) {
        return Err(fault);
    }
    Ok(Some((head, octets)))
}

// The answer where no octet is left: None, or the fault of the empty file, which counts as cut.
fn at_end(at: &Position) -> Result<Option<(Head, Vec<u8>)>, NgFault>
    ensures end { IfOk result (λ o. (o ≡ None) × (None ≡ end_fault at.now)) }
    ensures fault { IfErr result (λ f. (is_outside_fault f ≡ false) × (Some f ≡ end_fault at.now)) }
{
    match at.order {
        Some(_) => Ok(None),
        None => Err(NgFault::CutBlock(at.place)),
    }
}

// A block that was read to its end: all of its octets, where its body is read, and the number in
// its last four octets, None where the file ends before them.
#[derive(Drop)]
struct Rest {
    octets: Vec<u8>,
    last: Option<u32>,
}

// Reads a block to its end, behind its first octets.
fn read_rest<D: Desk>(
    alloc: Global,
    desk: &mut D,
    id: FileId,
    head: Head,
    first: &First,
) -> Result<Rest, DeskFault>
    requires { length first.now + 4 ≤ head.length }
    ensures last { IfOk result (λ rest. IfSome (D.told desk.old) (λ w.
        rest.last ≡ last_number head.order (head.length - length first.now) (left_of id.number w))) }
    ensures octets { IfOk result (λ rest. IfSome (D.told desk.old) (λ w.
        IsTrue (is_read head.kind) → rest.octets.items
        ≡ first.now ++ take (head.length - length first.now) (left_of id.number w))) }
    ensures whole { IfOk result (λ rest. IfSome rest.last (λ number. IsTrue (is_read head.kind) →
        length rest.octets.items ≡ head.length)) }
    ensures told { IfOk result (λ rest. IfSome rest.last (λ number. D.told desk.new
        ≡ option_map (after_read id.number (head.length - length first.now)) (D.told desk.old))) }
    ensures shown { shown (D.told desk.new) ≡ shown (D.told desk.old) }
    ensures given { D.given desk.new ≡ D.given desk.old }
    ensures cause { HasCause (D.faults desk.old) (D.faults desk.new) result }
    ensures steady { StaysSteady (D.steady desk.old) (D.steady desk.new)
        (IsGiven id.number to_read (D.given desk.old)) (IsErrOf result Failed) }
{
    let size = head.length - first.len() as u32;
    if !is_read(head.kind) {
        let last = read_end(alloc, desk, id, head.order, size)?;
        return Ok(Rest {
            octets: Vec::new(alloc),
            last,
        });
    }
    let octets = read_behind(alloc, desk, id, first.as_slice(), size)?;
    let last = last_of(head, &octets);
    Ok(Rest { octets, last })
}

// The number in the last four octets of a block, or None where fewer octets than the block has were
// read.
fn last_of(head: Head, octets: &[u8]) -> Option<u32>
    requires { 4 ≤ head.length }
    ensures { result ≡ last_number head.order head.length octets.now }
{
    if octets.len() < head.length as usize {
        return None;
    }
    Some(head.order.number_32(octets, head.length as usize - 4))
}
