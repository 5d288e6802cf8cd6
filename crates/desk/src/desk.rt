// The desk: five calls by which a run reaches files and its report.
ghost use Rattle.std.specs.Prelude.{◌≡◌, ◌≤◌, ◌<◌, ◌++◌, ◌∷◌, [], Bool, List, ℕ, length, take, Option, IfOk, OnOk, OnErr, IfSome, IsErrOf, option_map};
ghost use Rattle.desk.specs.Causes.{HasCause, StaysSteady};
ghost use Rattle.desk.specs.declared.fault.DeskFault.TheVariants.{Failed};
ghost use Rattle.desk.specs.World.{World, Direction, to_read, to_write, IsFresh, IsGiven, IsThere, left_of, Gives, after_open, after_make, after_read, after_write, after_say};

use crate::DeskFault;
use std::alloc::Global;

/// The number of an open file at its desk.
#[derive(Clone, Copy, Debug, PartialEq, Eq)]
pub struct FileId {
    pub number: u32,
}

/// A desk: the outside of a run. Contracts see the ids that it gave, the octets that it holds
/// unless it is opaque, a count of faults that never falls, and whether it is steady: no call on a
/// steady desk fails on a file that contracts see there, or on an id that was given in that
/// direction.
pub trait Desk {
    /// The ids that the desk gave, in order, each with its direction.
    ghost given: { Self → List (ℕ × Direction) };

    /// The files and the report of the desk; None for an opaque desk, whose octets contracts don't
    /// see.
    ghost told: { Self → Option World };

    /// The number of calls that have failed.
    ghost faults: { Self → ℕ };

    /// Whether the desk is steady.
    ghost steady: { Self → Bool };

    /// Opens a file by name, and returns an id that reads it from its start. A name that isn't
    /// there may be `Failed`, or read as an empty file.
    fn open_file(&mut self, alloc: Global, name: &str) -> Result<FileId, DeskFault>
        ensures given { IfOk result (λ id.
            given self.new ≡ given self.old ++ (id.number, to_read) ∷ []) }
        ensures told { IfOk result (λ id.
            told self.new ≡ option_map (after_open id.number name.now) (told self.old)) }
        ensures fresh { IfOk result (λ id. IsFresh id.number (given self.old) (told self.old)) }
        ensures err { OnErr result
            ((given self.new ≡ given self.old) × (told self.new ≡ told self.old)) }
        ensures cause { HasCause (faults self.old) (faults self.new) result }
        ensures steady { StaysSteady (steady self.old) (steady self.new)
            (IsThere name.now (told self.old)) (IsErrOf result Failed) };

    /// Makes a new, empty file of that name, and returns an id that writes it. After a fault no
    /// file was made.
    fn make_file(&mut self, alloc: Global, name: &str) -> Result<FileId, DeskFault>
        ensures given { IfOk result (λ id.
            given self.new ≡ given self.old ++ (id.number, to_write) ∷ []) }
        ensures told { IfOk result (λ id.
            told self.new ≡ option_map (after_make id.number name.now) (told self.old)) }
        ensures fresh { IfOk result (λ id. IsFresh id.number (given self.old) (told self.old)) }
        ensures err { OnErr result
            ((given self.new ≡ given self.old) × (told self.new ≡ told self.old)) }
        ensures cause { HasCause (faults self.old) (faults self.new) result }
        ensures steady { StaysSteady (steady self.old) (steady self.new)
            Unit (IsErrOf result Failed) };

    /// Reads the next octets of a file into the front of `buf`, and returns how many; 0 is the
    /// file's end.
    fn read_file(&mut self, alloc: Global, id: FileId, buf: &mut [u8]) -> Result<usize, DeskFault>
        requires { 0 < length buf.old }
        ensures bound { IfOk result (λ n. n ≤ length buf.new) }
        ensures octets { IfOk result (λ n.
            IfSome (told self.old) (λ w. Gives (left_of id.number w) n buf.new)) }
        ensures told { IfOk result (λ n.
            told self.new ≡ option_map (after_read id.number n) (told self.old)) }
        ensures given { given self.new ≡ given self.old }
        ensures err { OnErr result (told self.new ≡ told self.old) }
        ensures cause { HasCause (faults self.old) (faults self.new) result }
        ensures steady { StaysSteady (steady self.old) (steady self.new)
            (IsGiven id.number to_read (given self.old)) (IsErrOf result Failed) };

    /// Appends a piece to a file. After a fault a prefix of the piece was appended.
    fn write_file(&mut self, alloc: Global, id: FileId, piece: &[u8]) -> Result<(), DeskFault>
        ensures told { OnOk result
            (told self.new ≡ option_map (after_write id.number piece.now) (told self.old)) }
        ensures given { given self.new ≡ given self.old }
        ensures err { OnErr result ((k : ℕ) ×
            (told self.new
            ≡ option_map (after_write id.number (take k piece.now)) (told self.old))) }
        ensures cause { HasCause (faults self.old) (faults self.new) result }
        ensures steady { StaysSteady (steady self.old) (steady self.new)
            (IsGiven id.number to_write (given self.old)) (IsErrOf result Failed) };

    /// Appends a piece to the report. After a fault a prefix of the piece was appended.
    fn say(&mut self, alloc: Global, piece: &[u8]) -> Result<(), DeskFault>
        ensures told { OnOk result
            (told self.new ≡ option_map (after_say piece.now) (told self.old)) }
        ensures given { given self.new ≡ given self.old }
        ensures err { OnErr result ((k : ℕ) ×
            (told self.new ≡ option_map (after_say (take k piece.now)) (told self.old))) }
        ensures cause { HasCause (faults self.old) (faults self.new) result }
        ensures steady { StaysSteady (steady self.old) (steady self.new)
            Unit (IsErrOf result Failed) };
}
