// A reader of captures, of either format.
ghost use Rattle.std.specs.Prelude.{◌≡◌, None, IfOk, IfSome, IsErrOf, OnOk, option_map};
ghost use Rattle.desk.specs.declared.fault.DeskFault.TheVariants.{Failed};
ghost use Rattle.desk.specs.Causes.{HasCause, StaysSteady};
ghost use Rattle.desk.specs.World.{after_read, content, found_at, left_of, to_read, shown, IsGiven, IsThere};
ghost use Rattle.capture_io.specs.Reading as reading;
ghost use Rattle.command_words.specs.declared.intake.InputFormat.TheVariants.{Classic};
ghost use Rattle.playback.specs.Input.{beginning};
ghost use Rattle.replay.specs.Opening.{id_of, opened, progress_of, IsOpen, KeepsGiven, Opens, OpensClassic};

use capture_io::{CaptureFault, CaptureReader};
use capture_ng::NgReader;
use command_words::InputFormat;
use desk::{Desk, DeskFault, FileId};
use octets::Octets;
use playback::{FrameReader, InputFault, Next};
use std::alloc::Global;

/// A reader of a capture, by the capture's format.
#[derive(Drop)]
pub(crate) enum Input {
    Classic(CaptureReader),
    Ng(NgReader),
}

impl FrameReader for Input {
    ghost use Rattle.playback.specs.Limits.{most_records};
    ghost use Rattle.replay.specs.Opening.{id_of, progress_of, run_of, IsOpen};

    ghost id = { id_of };

    ghost run = { run_of };

    ghost progress = { progress_of };

    ghost most = { most_records };

    ghost IsOpen = { IsOpen };

    fn next_frame<D: Desk>(&mut self, alloc: Global, desk: &mut D) -> Result<Next, DeskFault> {
        match self {
            Input::Classic(reader) => reader.next_frame(alloc, desk),
            Input::Ng(reader) => reader.next_frame(alloc, desk),
        }
    }

    fn take_back(&mut self, octets: Octets) {
        match self {
            Input::Classic(reader) => reader.take_back(octets),
            Input::Ng(reader) => reader.take_back(octets),
        }
    }
}

/// Opens the capture of that name, and reads the header of a classic one. Returns the reader, or
/// the fault of that header.
pub(crate) fn open_input<D: Desk>(
    alloc: Global,
    desk: &mut D,
    format: InputFormat,
    name: &str,
) -> Result<Result<Input, InputFault>, DeskFault>
    ensures opened { IfOk result (λ input. IfSome (D.told desk.old) (λ w.
        Opens (opened format (content name.now w.files)) input (D.told desk.new))) }
    ensures open { IfOk result (λ input. IfOk input IsOpen) }
    ensures begins { IfOk result (λ input. IfOk input (λ reader. progress_of reader ≡ beginning)) }
    ensures given { IfOk result (λ input. IfOk input (λ reader. IsGiven (id_of reader) to_read (D.given desk.new))) }
    ensures shown { shown (D.told desk.new) ≡ shown (D.told desk.old) }
    ensures cause { HasCause (D.faults desk.old) (D.faults desk.new) result }
    ensures steady { StaysSteady (D.steady desk.old) (D.steady desk.new)
        (IsThere name.now (D.told desk.old)) (IsErrOf result Failed) }
{
    let id = desk.open_file(alloc, name)?;
    match format {
        InputFormat::Classic => start_classic(alloc, desk, id),
        InputFormat::Ng { vlans } => Ok(Ok(Input::Ng(NgReader::new(alloc, id, vlans)))),
    }
}

// Reads the header of a classic capture that is open. Returns its reader, or the fault of the
// header.
fn start_classic<D: Desk>(
    alloc: Global,
    desk: &mut D,
    id: FileId,
) -> Result<Result<Input, InputFault>, DeskFault>
    ensures opened { IfOk result (λ input. IfSome (D.told desk.old) (λ w.
        Opens (opened Classic (left_of id.number w)) input (D.told desk.new))) }
    ensures open { IfOk result (λ input. IfOk input IsOpen) }
    ensures begins { IfOk result (λ input. IfOk input (λ reader. progress_of reader ≡ beginning)) }
    ensures id { IfOk result (λ input. IfOk input (λ reader. id_of reader ≡ id.number)) }
    ensures shown { shown (D.told desk.new) ≡ shown (D.told desk.old) }
    ensures given { D.given desk.new ≡ D.given desk.old }
    ensures cause { HasCause (D.faults desk.old) (D.faults desk.new) result }
    ensures steady { StaysSteady (D.steady desk.old) (D.steady desk.new)
        (IsGiven id.number to_read (D.given desk.old)) (IsErrOf result Failed) }
{
    match start_capture(alloc, desk, id)? {
        Ok(reader) => Ok(Ok(Input::Classic(reader))),
        Err(fault) => Ok(Err(fault)),
    }
}

/// Opens the classic capture of that name, and reads its header. Returns the reader, or the fault
/// of the header.
pub(crate) fn open_classic<D: Desk>(
    alloc: Global,
    desk: &mut D,
    name: &str,
) -> Result<Result<CaptureReader, InputFault>, DeskFault>
    ensures opened { IfOk result (λ reader. IfSome (D.told desk.old) (λ w.
        OpensClassic (opened Classic (content name.now w.files)) reader (D.told desk.new))) }
    ensures begins { IfOk result (λ reader. IfOk reader (λ r. r ≡ reading.beginning r.id r.format)) }
    ensures given { IfOk result (λ reader. IfOk reader (λ r. IsGiven r.id to_read (D.given desk.new))) }
    ensures fresh { IfOk result (λ reader. IfOk reader (λ r. found_at r.id (D.given desk.old) ≡ None)) }
    ensures kept { IfOk result (λ reader. OnOk reader
        (KeepsGiven (D.given desk.old) (D.told desk.old) (D.given desk.new) (D.told desk.new))) }
    ensures shown { shown (D.told desk.new) ≡ shown (D.told desk.old) }
    ensures cause { HasCause (D.faults desk.old) (D.faults desk.new) result }
    ensures steady { StaysSteady (D.steady desk.old) (D.steady desk.new)
        (IsThere name.now (D.told desk.old)) (IsErrOf result Failed) }
{
    let id = desk.open_file(alloc, name)?;
    start_capture(alloc, desk, id)
}

fn start_capture<D: Desk>(
    alloc: Global,
    desk: &mut D,
    id: FileId,
) -> Result<Result<CaptureReader, InputFault>, DeskFault>
    ensures opened { IfOk result (λ reader. IfSome (D.told desk.old) (λ w.
        OpensClassic (opened Classic (left_of id.number w)) reader (D.told desk.new))) }
    ensures begins { IfOk result (λ reader. IfOk reader (λ r. r ≡ reading.beginning id.number r.format)) }
    ensures told { IfOk result (λ reader. OnOk reader
        (D.told desk.new ≡ option_map (after_read id.number 24) (D.told desk.old))) }
    ensures shown { shown (D.told desk.new) ≡ shown (D.told desk.old) }
    ensures given { D.given desk.new ≡ D.given desk.old }
    ensures cause { HasCause (D.faults desk.old) (D.faults desk.new) result }
    ensures steady { StaysSteady (D.steady desk.old) (D.steady desk.new)
        (IsGiven id.number to_read (D.given desk.old)) (IsErrOf result Failed) }
{
    match CaptureReader::start(alloc, desk, id) {
        Ok(reader) => Ok(Ok(reader)),
        Err(fault) => match fault {
            CaptureFault::Host => Err(DeskFault::Failed),
            CaptureFault::Memory => Err(DeskFault::Memory),
            own => Ok(Err(InputFault::Classic(own))),
        },
    }
}
