// A capture that is read record by record.
ghost use Rattle.std.specs.Prelude.{◌≡◌, ◌≢◌, ◌⊎◌, ◌≤◌, option_map, Some, Err, IfOk, IfErr, IfSome, IfNone, OnOk, IsErrOf, MatchOption};
ghost use Rattle.octets.specs.Causes.{Rose};
ghost use Rattle.desk.specs.Causes.{StaysSteady};
ghost use Rattle.desk.specs.World.{left_of, after_read, to_read, shown, IsGiven};
ghost use Rattle.capture_io.specs.declared.fault.CaptureFault.TheVariants.{Host};
ghost use Rattle.capture_io.specs.Answers.{IsAnswer};
ghost use Rattle.capture_io.specs.Calls.{answered, after_answer};
ghost use Rattle.capture_io.specs.Capture.{outcome, taken};
ghost use Rattle.capture_io.specs.Reading.{started, beginning, IsNext, after_frame, after_fault};

use crate::format::Format;
use crate::header::read_format;
use crate::position::Position;
use crate::record::read_record;
use crate::{CaptureFault, Frame};
use desk::{Desk, FileId, read_full};
use octets::Octets;
use std::alloc::Global;
use std::marker::Model;
use std::mem::replace;

/// A reader of a capture, which has read its header.
#[derive(Drop)]
pub struct CaptureReader {
    id: FileId,
    format: Format,
    position: Position,
    fault: Option<CaptureFault>,
    // Room for the octets of the next frame.
    spare: Vec<u8>,
}

impl Model for CaptureReader {
    ghost use Rattle.std.specs.Prelude.{IsTrue};
    ghost use Rattle.capture_io.specs.Reading.{Reading, is_reachable};

    ghost Value = { Reading };

    ghost view = { λ r.
        record { id = r.id.number; format = r.format; position = r.position; fault = r.fault } };

    ghost invariant = { λ r. IsTrue (is_reachable r.position) };
}

impl CaptureReader {
    /// Reads the 24 octets of the header, where the id stands, and returns a reader of the records;
    /// places count from there.
    pub fn start<D: Desk>(
        alloc: Global,
        desk: &mut D,
        id: FileId,
    ) -> Result<CaptureReader, CaptureFault>
        ensures answer { IfSome (D.told desk.old) (λ w.
            IsAnswer result (started id.number (left_of id.number w))) }
        ensures fresh { IfOk result (λ r. r ≡ beginning id.number r.format) }
        ensures told { OnOk result
            (D.told desk.new ≡ option_map (after_read id.number 24) (D.told desk.old)) }

        // On any exit only the place in the file has moved.
        ensures shown { shown (D.told desk.new) ≡ shown (D.told desk.old) }
        ensures given { D.given desk.new ≡ D.given desk.old }
        ensures later { D.faults desk.old ≤ D.faults desk.new }
        ensures host { IsErrOf result Host → Rose (D.faults desk.old) (D.faults desk.new) }
        ensures same { result ≢ Err Host → D.faults desk.new ≡ D.faults desk.old }
        ensures steady { StaysSteady (D.steady desk.old) (D.steady desk.new)
            (IsGiven id.number to_read (D.given desk.old)) (IsErrOf result Host) }
    {
        let mut header = [0u8; 24];
        let n = read_full(alloc, desk, id, &mut header)?;
        let format = read_format(&header[..n])?;
        Ok(CaptureReader {
            id,
            format,
            position: Position::begin(),
            fault: None,
            spare: Vec::new(alloc),
        })
    }

    /// The next frame, or None at the end of the file, and again at each later call. A fault other
    /// than `Memory` is kept, and each later call returns it; after `Memory` a reader is dropped.
    pub fn next<D: Desk>(
        &mut self,
        alloc: Global,
        desk: &mut D,
    ) -> Result<Option<Frame>, CaptureFault>
        // After a fault that was kept, the desk isn't called.
        ensures again { IfSome self.old.fault (λ f.
            (result ≡ Err f) × (self.new ≡ self.old) × (desk.new ≡ desk.old)) }
        ensures answer { IfNone self.old.fault (IfSome (D.told desk.old) (λ w.
            IsAnswer result (outcome self.old.format self.old.position (left_of self.old.id w)))) }
        ensures call { IfSome (D.told desk.old) (λ w.
            IsAnswer result (answered self.old (left_of self.old.id w))) }
        ensures after { self.new ≡ after_answer result self.old }
        ensures next { IfOk result (λ o. IfSome o (IsNext self.old.format self.old.position)) }
        ensures frame { IfOk result (λ o.
            MatchOption o (self.new ≡ self.old) (λ f. self.new ≡ after_frame self.old f)) }
        ensures fault { IfErr result (λ f. self.new ≡ after_fault self.old f) }
        ensures told { IfOk result (λ o.
            D.told desk.new ≡ option_map (after_read self.old.id (taken o)) (D.told desk.old)) }

        // On any exit only the place in the file has moved.
        ensures shown { shown (D.told desk.new) ≡ shown (D.told desk.old) }
        ensures given { D.given desk.new ≡ D.given desk.old }
        ensures later { D.faults desk.old ≤ D.faults desk.new }
        ensures host { IsErrOf result Host →
            (self.old.fault ≡ Some Host) ⊎ Rose (D.faults desk.old) (D.faults desk.new) }
        ensures same { result ≢ Err Host → D.faults desk.new ≡ D.faults desk.old }
        ensures steady { StaysSteady (D.steady desk.old) (D.steady desk.new)
            (IsGiven self.old.id to_read (D.given desk.old))
            (IsErrOf result Host × (self.old.fault ≢ Some Host)) }
    {
        if let Some(fault) = self.fault {
            return Err(fault);
        }
        let spare = replace(&mut self.spare, Vec::new(alloc));
        match read_record(alloc, desk, self.id, self.format, self.position, spare) {
            Ok(Some(frame)) => {
                self.position = self.position.passed(&frame);
                Ok(Some(frame))
            }
            Ok(None) => Ok(None),
            Err(fault) => {
                if fault != CaptureFault::Memory {
                    self.fault = Some(fault);
                }
                Err(fault)
            }
        }
    }

    /// Takes back the list of a frame that is no longer needed, for the next frame. One such list
    /// is kept; the list of a frame that this reader returned has room for less than twice the
    /// longest frame so far.
    pub fn take_back(&mut self, octets: Octets)
        ensures { self.new ≡ self.old }
    {
        self.spare = octets.into_vec();
    }
}
