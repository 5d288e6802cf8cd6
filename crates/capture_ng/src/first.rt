// The first octets of a block.
ghost use Rattle.std.specs.Prelude.{◌≡◌, ◌≤◌, ◌+◌, ◌-◌, ◌++◌, ◌&&◌, [], length, nat_le, take, option_map, IfOk, IfSome, IsErrOf, OnOk};
ghost use Rattle.desk.specs.declared.fault.DeskFault.TheVariants.{Failed};
ghost use Rattle.desk.specs.Causes.{HasCause, StaysSteady};
ghost use Rattle.desk.specs.World.{left_of, after_read, to_read, shown, IsGiven};
ghost use Rattle.capture_ng.specs.Blocks.{begins_section, first_size};

use crate::coming::fill_part;
use crate::heads::begins_section;
use desk::{Desk, DeskFault, FileId};
use std::alloc::Global;
use std::marker::Model;

/// The first octets of a block, as far as they were read, twelve at most.
#[derive(Drop)]
pub struct First {
    octets: [u8; 12],
    count: usize,
}

impl Model for First {
    ghost use Rattle.std.specs.Prelude.{ℕ, List, ◌≤◌, take};

    ghost Value = { List ℕ };

    ghost view = { λ first. take first.count first.octets };

    ghost invariant = { λ first. first.count ≤ 12 };
}

impl First {
    fn new() -> First
        ensures { result ≡ [] }
    {
        First {
            octets: [0; 12],
            count: 0,
        }
    }

    pub fn len(&self) -> usize
        ensures { result ≡ length self.now }
    {
        self.count
    }

    pub fn as_slice(&self) -> &[u8]
        ensures value { result.now ≡ self.now }
        ensures most { length result.now ≤ 12 }
    {
        &self.octets[0..self.count]
    }

    // Reads the next `size` octets of the file behind these, or fewer where the file ends before.
    fn read_on<D: Desk>(
        &mut self,
        alloc: Global,
        desk: &mut D,
        id: FileId,
        size: usize,
    ) -> Result<(), DeskFault>
        requires { length self.old + size ≤ 12 }
        ensures octets { OnOk result (IfSome (D.told desk.old) (λ w.
            self.new ≡ self.old ++ take size (left_of id.number w))) }
        ensures told { OnOk result (D.told desk.new
            ≡ option_map (after_read id.number (length self.new - length self.old)) (D.told desk.old)) }
        ensures most { OnOk result (length self.new ≤ length self.old + size) }
        ensures front { OnOk result (take (length self.old) self.new ≡ self.old) }
        ensures more { OnOk result (length self.old ≤ length self.new) }
        ensures shown { shown (D.told desk.new) ≡ shown (D.told desk.old) }
        ensures given { D.given desk.new ≡ D.given desk.old }
        ensures cause { HasCause (D.faults desk.old) (D.faults desk.new) result }
        ensures steady { StaysSteady (D.steady desk.old) (D.steady desk.new)
            (IsGiven id.number to_read (D.given desk.old)) (IsErrOf result Failed) }
    {
        let end = self.count + size;
        let n = fill_part(alloc, desk, id, &mut self.octets, self.count, end)?;
        self.count += n;
        Ok(())
    }
}

/// The first octets of a block: twelve of a section header, eight of any other, or fewer where the file
/// ends before.
pub fn read_first<D: Desk>(alloc: Global, desk: &mut D, id: FileId) -> Result<First, DeskFault>
    ensures octets { IfOk result (λ first. IfSome (D.told desk.old) (λ w.
        first ≡ take (first_size (left_of id.number w)) (left_of id.number w))) }
    ensures most { IfOk result (λ first. length first ≤ first_size first) }
    ensures told { IfOk result (λ first.
        D.told desk.new ≡ option_map (after_read id.number (length first)) (D.told desk.old)) }
    ensures shown { shown (D.told desk.new) ≡ shown (D.told desk.old) }
    ensures given { D.given desk.new ≡ D.given desk.old }
    ensures cause { HasCause (D.faults desk.old) (D.faults desk.new) result }
    ensures steady { StaysSteady (D.steady desk.old) (D.steady desk.new)
        (IsGiven id.number to_read (D.given desk.old)) (IsErrOf result Failed) }
{
    let mut first = First::new();
    first.read_on(alloc, desk, id, 8)?;
    if !is_longer_head(first.as_slice()) {
        return Ok(first);
    }
    first.read_on(alloc, desk, id, 4)?;
    Ok(first)
}

// Whether octets are at least eight, and begin a section header.
fn is_longer_head(octets: &[u8]) -> bool
    ensures { result ≡ (nat_le 8 (length octets.now) && begins_section octets.now) }
{
    octets.len() >= 8 && begins_section(octets)
}
