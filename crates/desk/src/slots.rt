// Slots: the open files of a desk in memory, by id.
ghost use Rattle.std.specs.Prelude.{◌≡◌, ◌≤◌, ◌<◌, [], length, drop, unwrap_or, option_map, is_some, IfSome, IfNone, IfOk, OnOk, OnErr};
ghost use Rattle.desk.specs.World.{Gives, extended};
ghost use Rattle.desk.specs.Slots.{reader_in, writer_in, direction_in};

use crate::NamedFile;
use crate::source::Source;
use octets::NoMemory;

#[derive(Drop)]
pub enum Slot {
    Reading(Source),
    Writing(NamedFile),
}

impl Slot {
    // Reads the next octets of a slot into `buf`, and returns how many; None for a slot that
    // writes.
    pub fn read(&mut self, buf: &mut [u8]) -> Option<usize>
        ensures known { is_some result ≡ is_some (reader_in self.old) }
        ensures bound { IfSome result (λ n. n ≤ length buf.new) }
        ensures octets { 0 < length buf.old → IfSome result (λ n.
            Gives (unwrap_or (reader_in self.old) []) n buf.new) }
        ensures reader { IfSome result (λ n.
            reader_in self.new ≡ option_map (drop n) (reader_in self.old)) }
        ensures writer { writer_in self.new ≡ writer_in self.old }
        ensures direction { direction_in self.new ≡ direction_in self.old }
        ensures none { IfNone result (self.new ≡ self.old) }
    {
        match self {
            Slot::Reading(source) => Some(source.read(buf)),
            Slot::Writing(_) => None,
        }
    }

    // Appends a piece to the file of a slot, and returns true; false for a slot that reads.
    pub fn write(&mut self, piece: &[u8]) -> Result<bool, NoMemory>
        ensures known { IfOk result (λ done. done ≡ is_some (writer_in self.old)) }
        ensures reader { reader_in self.new ≡ reader_in self.old }
        ensures writer { OnOk result
            (writer_in self.new ≡ option_map (extended piece.now) (writer_in self.old)) }
        ensures direction { direction_in self.new ≡ direction_in self.old }
        ensures err { OnErr result (self.new ≡ self.old) }
    {
        match self {
            Slot::Reading(_) => Ok(false),
            Slot::Writing(file) => {
                file.octets.append(piece)?;
                Ok(true)
            }
        }
    }
}
