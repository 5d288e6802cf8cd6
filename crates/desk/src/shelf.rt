// Files in memory: those that are there, and those that ids read and write.
ghost use Rattle.std.specs.Prelude.{◌≡◌, ◌≤◌, ◌<◌, ◌++◌, ℕ, [], length, drop, unwrap_or, IfOk, IfNone, IfSome, OnOk, OnErr, Some, true, option_map, is_some};
ghost use Rattle.desk.specs.World.{IsFresh, IsGiven, Gives, to_read, to_write, there, found_at, changed_at, extended, left_of};
ghost use Rattle.desk.specs.Shelf.{untouched, opened, made, moved, wrote, spoke, made_last, file_of};
ghost use Rattle.desk.specs.Slots.{entries, entries_from, reader_in, writer_in, direction_in, with_slot};

use crate::slots::Slot;
use crate::source::Source;
use crate::{FileId, Files, NamedFile};
use octets::{NoMemory, Octets};
use std::alloc::Global;
use std::marker::Model;

/// A shelf: files by name, open files by id, and a report.
#[derive(Drop)]
pub struct Shelf {
    files: Files,
    slots: Vec<Slot>,
    said: Octets,
}

impl Model for Shelf {
    ghost use Rattle.desk.specs.Shelf.{Shelf as Seen};
    ghost use Rattle.desk.specs.Slots.{shelf_of};

    ghost Value = { Seen };

    ghost view = { λ s. shelf_of s.files s.slots.items s.said };
}

impl Shelf {
    pub fn new(alloc: Global, files: Files) -> Self
        ensures { result ≡ untouched files }
    {
        Shelf {
            files,
            slots: Vec::new(alloc),
            said: Octets::new(alloc),
        }
    }

    pub fn said(&self) -> &[u8]
        ensures { result.now ≡ self.now.world.said }
    {
        self.said.as_slice()
    }

    // The content of the file of that name: the last one made, or else the one that was there. None
    // without one.
    pub fn file(&self, name: &str) -> Option<&[u8]>
        ensures { option_map (λ octets. octets.now) result ≡ file_of name.now self.now.world }
    {
        if let Some(octets) = last_made(self.slots.as_slice(), name) {
            return Some(octets);
        }
        find(self.files.as_slice(), name)
    }

    pub fn has(&self, name: &str) -> bool
        ensures { result ≡ is_some (there name.now self.now.world.files) }
    {
        find(self.files.as_slice(), name).is_some()
    }

    // Opens the file of that name, and returns an id that reads it. A name that isn't there reads
    // as an empty file.
    pub fn open(&mut self, alloc: Global, name: &str) -> Result<FileId, NoMemory>
        ensures fresh { IfOk result (λ id. IsFresh id.number self.old.given (Some self.old.world)) }
        ensures shelf { self.new ≡ opened name.now result self.old }
    {
        let file = match find(self.files.as_slice(), name) {
            Some(octets) => Octets::copied(alloc, octets)?,
            None => Octets::new(alloc),
        };
        self.give(Slot::Reading(Source { file, place: 0 }))
    }

    // Makes a new file of that name, and returns an id that writes it.
    pub fn make(&mut self, alloc: Global, name: &str) -> Result<FileId, NoMemory>
        ensures fresh { IfOk result (λ id. IsFresh id.number self.old.given (Some self.old.world)) }
        ensures shelf { self.new ≡ made name.now result self.old }
    {
        let name = Octets::copied(alloc, name.as_bytes())?;
        self.give(Slot::Writing(NamedFile {
            name,
            octets: Octets::new(alloc),
        }))
    }

    // Adds a slot, and returns its id. Where no number is left for an id, the fault is `NoMemory`.
    fn give(&mut self, slot: Slot) -> Result<FileId, NoMemory>
        ensures given { IfOk result (λ id. self.new ≡ with_slot id.number slot self.old) }
        ensures fresh { IfOk result (λ id. IsFresh id.number self.old.given (Some self.old.world)) }
        ensures err { OnErr result (self.new ≡ self.old) }
    {
        match u32::try_from(self.slots.len()) {
            Ok(number) => {
                self.slots.push(slot)?;
                Ok(FileId { number })
            }
            Err(_) => Err(NoMemory),
        }
    }

    // Reads the next octets of an id into the front of `buf`, and returns how many; None for an id
    // that doesn't read.
    pub fn read(&mut self, id: FileId, buf: &mut [u8]) -> Option<usize>
        requires { 0 < length buf.old }
        ensures known { is_some result ≡ is_some (found_at id.number self.old.world.readers) }
        ensures bound { IfSome result (λ n. n ≤ length buf.new) }
        ensures octets { IfSome result (λ n. Gives (left_of id.number self.old.world) n buf.new) }
        ensures shelf { IfSome result (λ n. self.new ≡ moved id.number n self.old) }
        ensures given { IsGiven id.number to_read self.old.given → true ≡ is_some result }
        ensures none { IfNone result (self.new ≡ self.old) }
    {
        read_slot(&mut self.slots, id.number as usize, buf)
    }

    // Appends a piece to the file of an id, and returns true; false for an id that doesn't write.
    pub fn write(&mut self, id: FileId, piece: &[u8]) -> Result<bool, NoMemory>
        ensures known { IfOk result (λ done.
            done ≡ is_some (found_at id.number self.old.world.writers)) }
        ensures given { IsGiven id.number to_write self.old.given → IfOk result (λ done. true ≡ done) }
        ensures shelf { OnOk result (self.new ≡ wrote id.number piece.now self.old) }
        ensures err { OnErr result (self.new ≡ self.old) }
    {
        write_slot(&mut self.slots, id.number as usize, piece)
    }

    pub fn say(&mut self, piece: &[u8]) -> Result<(), NoMemory>
        ensures ok { OnOk result (self.new ≡ spoke piece.now self.old) }
        ensures err { OnErr result (self.new ≡ self.old) }
    {
        self.said.append(piece)
    }
}

// The content of the last made file of that name, or None.
fn last_made<'a>(slots: &'a [Slot], name: &str) -> Option<&'a [u8]>
    ensures { (k : ℕ) → option_map (λ octets. octets.now) result
        ≡ made_last name.now (entries_from writer_in k slots.now) }
{
    let [first, rest @ ..] = slots else {
        return None;
    };
    if let Some(octets) = last_made(rest, name) {
        return Some(octets);
    }
    match first {
        Slot::Writing(file) => {
            if file.name.as_slice() == name.as_bytes() {
                Some(file.octets.as_slice())
            } else {
                None
            }
        }
        Slot::Reading(_) => None,
    }
}

// The content of the first file of that name, or None.
fn find<'a>(files: &'a [NamedFile], name: &str) -> Option<&'a [u8]>
    ensures { option_map (λ octets. octets.now) result ≡ there name.now files.now }
{
    for file in files {
        if file.name.as_slice() == name.as_bytes() {
            return Some(file.octets.as_slice());
        }
    }
    None
}

fn read_slot(slots: &mut Vec<Slot>, number: usize, buf: &mut [u8]) -> Option<usize>
    ensures known { is_some result ≡ is_some (found_at number (entries reader_in slots.old.items)) }
    ensures bound { IfSome result (λ n. n ≤ length buf.new) }
    ensures octets { 0 < length buf.old → IfSome result (λ n.
        Gives (unwrap_or (found_at number (entries reader_in slots.old.items)) []) n buf.new) }
    ensures reader { IfSome result (λ n. entries reader_in slots.new.items
        ≡ changed_at number (drop n) (entries reader_in slots.old.items)) }
    ensures writer { entries writer_in slots.new.items ≡ entries writer_in slots.old.items }
    ensures direction { entries direction_in slots.new.items
        ≡ entries direction_in slots.old.items }
    ensures none { IfNone result (slots.new.items ≡ slots.old.items) }
{
    let slot = slots.get_mut(number)?;
    slot.read(buf)
}

// Appends a piece to the file in a numbered slot, and returns true; false where that slot doesn't
// write.
fn write_slot(slots: &mut Vec<Slot>, number: usize, piece: &[u8]) -> Result<bool, NoMemory>
    ensures known { IfOk result (λ done.
        done ≡ is_some (found_at number (entries writer_in slots.old.items))) }
    ensures reader { entries reader_in slots.new.items ≡ entries reader_in slots.old.items }
    ensures writer { OnOk result (entries writer_in slots.new.items
        ≡ changed_at number (extended piece.now) (entries writer_in slots.old.items)) }
    ensures direction { entries direction_in slots.new.items
        ≡ entries direction_in slots.old.items }
    ensures err { OnErr result (slots.new.items ≡ slots.old.items) }
{
    match slots.get_mut(number) {
        Some(slot) => slot.write(piece),
        None => Ok(false),
    }
}
