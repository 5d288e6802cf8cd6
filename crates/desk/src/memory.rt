// A desk in memory, whose octets contracts see, and whose calls of stated numbers fail.
ghost use Rattle.std.specs.Prelude.{◌≡◌, ◌≤◌, ◌<◌, length, option_map, IfOk, IsErrOf, IsTrue, Some};
ghost use Rattle.desk.specs.declared.fault.DeskFault.TheVariants.{Failed, Memory};
ghost use Rattle.desk.specs.World.{IsFresh, IsGiven, Gives, to_read, to_write, there, found_at, left_of};
ghost use Rattle.desk.specs.Memory.{unused, counted, is_steady, is_to_fail, fails_at, Answers, called, moved_by, appended};
ghost use Rattle.desk.specs.Shelf.{opened, made, wrote, spoke, file_of};

use crate::shelf::Shelf;
use crate::{Desk, DeskFault, FileId, Files};
use octets::Items;
use std::alloc::Global;
use std::marker::Model;

/// Numbers of calls, counted from 1 over all five calls of a desk.
pub type Calls = Items<u64>;

/// A desk in memory over files of its own. A name that isn't there, and an id that the desk didn't
/// give in that direction, are `Failed`, as is each call whose number is stated; a stated
/// `write_file` or `say` still appends the first half of its piece, rounded down. The desk is
/// steady once all stated numbers have passed.
#[derive(Drop)]
pub struct MemoryDesk {
    shelf: Shelf,
    fails: Calls,
    calls: u64,
    faults: u64,
}

impl Model for MemoryDesk {
    ghost use Rattle.desk.specs.Memory.{Memory};

    ghost Value = { Memory };

    ghost view = { λ d.
        record { shelf = d.shelf; fails = d.fails; calls = d.calls; faults = d.faults } };
}

impl MemoryDesk {
    /// A desk that holds these files, and whose calls of the numbers `fails` fail.
    pub fn new(alloc: Global, files: Files, fails: Calls) -> Self
        ensures { result ≡ unused files fails }
    {
        MemoryDesk {
            shelf: Shelf::new(alloc, files),
            fails,
            calls: 0,
            faults: 0,
        }
    }

    /// The octets of the report.
    pub fn said(&self) -> &[u8]
        ensures { result.now ≡ self.now.shelf.world.said }
    {
        self.shelf.said()
    }

    /// The content of the file of that name: the last one made, or else the one that was there.
    /// None without one.
    pub fn file(&self, name: &str) -> Option<&[u8]>
        ensures { option_map (λ octets. octets.now) result ≡ file_of name.now self.now.shelf.world }
    {
        self.shelf.file(name)
    }

    // Counts a call, and returns whether it is one that must fail.
    fn begin(&mut self) -> bool
        ensures is { result ≡ is_to_fail self.old }
        ensures counted { self.new ≡ record self.old { calls = counted self.old.calls } }
    {
        match self.calls.checked_add(1) {
            Some(call) => {
                self.calls = call;
                self.fails.as_slice().contains(&call)
            }
            None => false,
        }
    }

    fn fault(&mut self) -> DeskFault
        ensures fault { result ≡ Failed }
        ensures counted { self.new ≡ record self.old { faults = counted self.old.faults } }
    {
        self.faults = self.faults.saturating_add(1);
        DeskFault::Failed
    }
}

impl Desk for MemoryDesk {
    ghost given = { λ desk. desk.shelf.given };

    ghost told = { λ desk. Some desk.shelf.world };

    ghost faults = { λ desk. desk.faults };

    ghost steady = { λ desk. is_steady desk };

    fn open_file(&mut self, alloc: Global, name: &str) -> Result<FileId, DeskFault>
        ensures answer { Answers (fails_at (there name.now self.old.shelf.world.files) self.old) result }
        ensures fresh { IfOk result (λ id.
            IsFresh id.number self.old.shelf.given (Some self.old.shelf.world)) }
        ensures desk { self.new ≡ called result (opened name.now result self.old.shelf) self.old }
    {
        if self.begin() || !self.shelf.has(name) {
            return Err(self.fault());
        }
        Ok(self.shelf.open(alloc, name)?)
    }

    fn make_file(&mut self, alloc: Global, name: &str) -> Result<FileId, DeskFault>
        ensures answer { Answers (is_to_fail self.old) result }
        ensures fresh { IfOk result (λ id.
            IsFresh id.number self.old.shelf.given (Some self.old.shelf.world)) }
        ensures desk { self.new ≡ called result (made name.now result self.old.shelf) self.old }
    {
        if self.begin() {
            return Err(self.fault());
        }
        Ok(self.shelf.make(alloc, name)?)
    }

    #[tactic(auto, using(crate::proofs::SteadyLemmas::never_fails))]
    fn read_file(&mut self, _alloc: Global, id: FileId, buf: &mut [u8]) -> Result<usize, DeskFault>
        requires { 0 < length buf.old }
        ensures answer { Answers
            (fails_at (found_at id.number self.old.shelf.world.readers) self.old) result }
        ensures never { IsTrue (is_steady self.old)
            → IsGiven id.number to_read self.old.shelf.given → IsErrOf result Failed → ⊥ }
        ensures memory { IsErrOf result Memory → ⊥ }
        ensures bound { IfOk result (λ n. n ≤ length buf.new) }
        ensures octets { IfOk result (λ n.
            Gives (left_of id.number self.old.shelf.world) n buf.new) }
        ensures desk { self.new
            ≡ called result (moved_by id.number result self.old.shelf) self.old }
    {
        if self.begin() {
            return Err(self.fault());
        }
        match self.shelf.read(id, buf) {
            Some(n) => Ok(n),
            None => Err(self.fault()),
        }
    }

    #[tactic(auto, using(crate::proofs::SteadyLemmas::never_fails))]
    fn write_file(&mut self, _alloc: Global, id: FileId, piece: &[u8]) -> Result<(), DeskFault>
        ensures answer { Answers
            (fails_at (found_at id.number self.old.shelf.world.writers) self.old) result }
        ensures never { IsTrue (is_steady self.old)
            → IsGiven id.number to_write self.old.shelf.given → IsErrOf result Failed → ⊥ }
        ensures desk { self.new
            ≡ called result (wrote id.number (appended result piece.now) self.old.shelf) self.old }
    {
        if self.begin() {
            self.shelf.write(id, &piece[..piece.len() / 2])?;
            return Err(self.fault());
        }
        if self.shelf.write(id, piece)? {
            Ok(())
        } else {
            Err(self.fault())
        }
    }

    fn say(&mut self, _alloc: Global, piece: &[u8]) -> Result<(), DeskFault>
        ensures answer { Answers (is_to_fail self.old) result }
        ensures desk { self.new
            ≡ called result (spoke (appended result piece.now) self.old.shelf) self.old }
    {
        if self.begin() {
            self.shelf.say(&piece[..piece.len() / 2])?;
            return Err(self.fault());
        }
        self.shelf.say(piece)?;
        Ok(())
    }
}
