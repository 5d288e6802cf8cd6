// A desk in memory none of whose calls fails.
ghost use Rattle.std.specs.Prelude.{◌≡◌, ◌≤◌, ◌<◌, length, option_map, true, IfOk, IsErr, IsErrOf, Some};
ghost use Rattle.desk.specs.declared.fault.DeskFault.TheVariants.{Failed, Memory};
ghost use Rattle.desk.specs.World.{IsFresh, Gives, left_of};
ghost use Rattle.desk.specs.Shelf.{untouched, opened, made, moved, written, wrote, spoke, file_of};

use crate::shelf::Shelf;
use crate::{Desk, DeskFault, FileId, Files};
use std::alloc::Global;
use std::marker::Model;

/// A steady desk in memory over files of its own: no call fails but for want of memory. Each name
/// is there, the name of no file as an empty file. An id that the desk didn't give reads as at a
/// file's end, and writes to no file.
#[derive(Drop)]
pub struct SteadyDesk {
    shelf: Shelf,
}

impl Model for SteadyDesk {
    ghost use Rattle.desk.specs.Shelf.{Shelf as Seen};

    ghost Value = { Seen };

    ghost view = { λ d. d.shelf };
}

impl SteadyDesk {
    /// A desk that holds these files.
    pub fn new(alloc: Global, files: Files) -> Self
        ensures { result ≡ untouched files }
    {
        SteadyDesk {
            shelf: Shelf::new(alloc, files),
        }
    }

    /// The octets of the report.
    pub fn said(&self) -> &[u8]
        ensures { result.now ≡ self.now.world.said }
    {
        self.shelf.said()
    }

    /// The content of the file of that name: the last one made, or else the one that was there.
    /// None without one.
    pub fn file(&self, name: &str) -> Option<&[u8]>
        ensures { option_map (λ octets. octets.now) result ≡ file_of name.now self.now.world }
    {
        self.shelf.file(name)
    }
}

impl Desk for SteadyDesk {
    ghost given = { λ desk. desk.given };

    ghost told = { λ desk. Some desk.world };

    ghost faults = { λ desk. 0 };

    ghost steady = { λ desk. true };

    fn open_file(&mut self, alloc: Global, name: &str) -> Result<FileId, DeskFault>
        ensures never { IsErrOf result Failed → ⊥ }
        ensures fresh { IfOk result (λ id. IsFresh id.number self.old.given (Some self.old.world)) }
        ensures desk { self.new ≡ opened name.now result self.old }
    {
        Ok(self.shelf.open(alloc, name)?)
    }

    fn make_file(&mut self, alloc: Global, name: &str) -> Result<FileId, DeskFault>
        ensures never { IsErrOf result Failed → ⊥ }
        ensures fresh { IfOk result (λ id. IsFresh id.number self.old.given (Some self.old.world)) }
        ensures desk { self.new ≡ made name.now result self.old }
    {
        Ok(self.shelf.make(alloc, name)?)
    }

    fn read_file(&mut self, _alloc: Global, id: FileId, buf: &mut [u8]) -> Result<usize, DeskFault>
        requires { 0 < length buf.old }
        ensures never { IsErr result → ⊥ }
        ensures bound { IfOk result (λ n. n ≤ length buf.new) }
        ensures octets { IfOk result (λ n. Gives (left_of id.number self.old.world) n buf.new) }
        ensures desk { IfOk result (λ n. self.new ≡ moved id.number n self.old) }
    {
        let Some(n) = self.shelf.read(id, buf) else {
            return Ok(0);
        };
        Ok(n)
    }

    fn write_file(&mut self, _alloc: Global, id: FileId, piece: &[u8]) -> Result<(), DeskFault>
        ensures never { IsErrOf result Failed → ⊥ }
        ensures desk { self.new ≡ wrote id.number (written result piece.now) self.old }
    {
        self.shelf.write(id, piece)?;
        Ok(())
    }

    fn say(&mut self, _alloc: Global, piece: &[u8]) -> Result<(), DeskFault>
        ensures never { IsErrOf result Failed → ⊥ }
        ensures desk { self.new ≡ spoke (written result piece.now) self.old }
    {
        self.shelf.say(piece)?;
        Ok(())
    }
}
