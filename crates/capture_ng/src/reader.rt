// A pcapng capture that is read block by block.
ghost use Rattle.std.specs.Prelude.{◌≡◌, ◌≢◌, ◌⊎◌, ◌≤◌, option_map, Some, None, Err, false, IfOk, IfErr, IfSome, IfNone, IsErrOf};
ghost use Rattle.octets.specs.Causes.{Rose};
ghost use Rattle.desk.specs.Causes.{StaysSteady};
ghost use Rattle.desk.specs.World.{left_of, to_read, shown, IsGiven};
ghost use Rattle.capture_io.specs.Run.{goes_on};
ghost use Rattle.capture_ng.specs.Answers.{IsAnswer, is_outside};
ghost use Rattle.capture_ng.specs.Found.{found};
ghost use Rattle.capture_ng.specs.Frames.{read_on};
ghost use Rattle.capture_ng.specs.Reading.{IsCounted, IsNext, after_found, beginning, kept_fault};
ghost use Rattle.capture_ng.specs.declared.fault.NgFault.TheVariants.{Host};

use crate::NgFault;
use crate::finding::find_frame;
use crate::position::Position;
use capture_io::Frame;
use desk::{Desk, FileId};
use std::alloc::Global;
use std::marker::Model;

/// A reader of a pcapng capture.
#[derive(Drop)]
pub struct NgReader {
    id: FileId,
    vlans: bool,
    position: Position,
    fault: Option<NgFault>,
}

impl Model for NgReader {
    ghost use Rattle.capture_ng.specs.Reading.{NgReading};

    ghost Value = { NgReading };

    ghost view = { λ r.
        record { id = r.id.number; vlans = r.vlans; position = r.position; fault = r.fault } };
}

impl NgReader {
    /// A reader of a file from where the id stands, which is the file's start; places count from
    /// there. Where `vlans` is set, interfaces are VLANs. Takes no memory, and reads no octet.
    pub fn new(alloc: Global, id: FileId, vlans: bool) -> NgReader
        ensures { result ≡ beginning id.number vlans }
    {
        NgReader {
            id,
            vlans,
            position: Position::begin(alloc),
            fault: None,
        }
    }

    /// The next frame, or None at the end of the file, and again at each later call. A fault other
    /// than `Memory` is kept, and each later call returns it; after `Memory` a reader is dropped.
    pub fn next<D: Desk>(&mut self, alloc: Global, desk: &mut D) -> Result<Option<Frame>, NgFault>
        // After a fault that was kept, the desk isn't called.
        ensures again { IfSome self.old.fault (λ f.
            (result ≡ Err f) × (self.new ≡ self.old) × (desk.new ≡ desk.old)) }
        ensures answer { IfNone self.old.fault (IfSome (D.told desk.old) (λ w. IsAnswer result
            (found self.old.vlans self.old.position (left_of self.old.id w)).answer)) }
        ensures position { IfNone self.old.fault (IfSome (D.told desk.old) (λ w.
            is_outside result ≡ false → self.new.position
            ≡ (found self.old.vlans self.old.position (left_of self.old.id w)).position)) }
        ensures rest { IfNone self.old.fault (IfSome (D.told desk.old) (λ w.
            IfSome (D.told desk.new) (λ v. is_outside result ≡ false →
            read_on self.old.vlans self.old.position (left_of self.old.id w)
            ≡ goes_on result (read_on self.old.vlans self.new.position (left_of self.old.id v))))) }
        ensures next { IfOk result (λ o. IfSome o (IsNext self.old.vlans self.old.position)) }
        ensures count { IfOk result (λ o. IsCounted o self.old.position self.new.position) }
        ensures fault { IfErr result (λ f. IsCounted None self.old.position self.new.position) }
        ensures kept { IfNone self.old.fault (IfErr result (λ f.
            self.new.fault ≡ kept_fault f)) }
        ensures none { IfOk result (λ o. self.new.fault ≡ None) }
        ensures id { self.new.id ≡ self.old.id }
        ensures vlans { self.new.vlans ≡ self.old.vlans }
        ensures told { IfOk result (λ o. D.told desk.new ≡ option_map
            (after_found self.old.id self.old.vlans self.old.position) (D.told desk.old)) }

        // On any exit only the place in the file has moved.
        ensures shown { shown (D.told desk.new) ≡ shown (D.told desk.old) }
        ensures given { D.given desk.new ≡ D.given desk.old }
        ensures later { D.faults desk.old ≤ D.faults desk.new }
        ensures host { IsErrOf result Host →
            (self.old.fault ≡ Some Host) ⊎ Rose (D.faults desk.old) (D.faults desk.new) }
        ensures same { result ≢ Err Host → D.faults desk.new ≡ D.faults desk.old }
        ensures steady { StaysSteady (D.steady desk.old) (D.steady desk.new)
            (IsGiven self.old.id to_read (D.given desk.old))
            (IsErrOf result Host × (self.old.fault ≢ Some Host)) }
    {
        if let Some(fault) = self.fault {
            return Err(fault);
        }
        match find_frame(alloc, desk, self.id, self.vlans, &mut self.position) {
            Ok(found) => Ok(found),
            Err(fault) => {
                if fault != NgFault::Memory {
                    self.fault = Some(fault);
                }
                Err(fault)
            }
        }
    }
}
