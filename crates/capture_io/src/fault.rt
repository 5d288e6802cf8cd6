// Why a capture can't be read on.
ghost use Rattle.std.specs.Prelude.{◌≡◌};
ghost use Rattle.capture_io.specs.declared.fault.CaptureFault.TheVariants.{Memory};

use desk::DeskFault;
use octets::NoMemory;

/// The first fault of a capture. A place is an offset in octets from the start of the file; that of
/// a record is where its header begins. Records are numbered from 1.
#[derive(Clone, Copy, Debug, PartialEq, Eq)]
pub enum CaptureFault {
    /// The file doesn't begin with one of the two magic numbers, in either byte order.
    BadMagic,
    /// The version isn't 2.4.
    BadVersion,
    /// The link type is neither Ethernet (1) nor raw IP (101).
    BadLink,
    /// The file has so many octets, fewer than the 24 of its header.
    CutHeader(u64),
    /// The file ends within the record at this place.
    CutRecord(u64),
    /// The fraction of the record at this place is a second or more.
    BadFraction(u64),
    /// The record at this place keeps so many octets of its frame, more than 262,144.
    TooLong(u64, u32),
    /// The record of this number has a moment more than 1,000,000 seconds past all before it.
    SpanTooLong(u32),
    /// An octet follows record 1,000,000,000.
    TooManyRecords,
    /// The desk failed.
    Host,
    /// An allocation was refused.
    Memory,
}

impl From<NoMemory> for CaptureFault {
    ghost from_gives = { λ _ fault. fault ≡ Memory };

    fn from(_: NoMemory) -> Self {
        CaptureFault::Memory
    }
}

impl From<DeskFault> for CaptureFault {
    ghost use Rattle.capture_io.specs.Answers.{fault_of};

    ghost from_gives = { λ fault gives. gives ≡ fault_of fault };

    fn from(fault: DeskFault) -> Self {
        match fault {
            DeskFault::Failed => CaptureFault::Host,
            DeskFault::Memory => CaptureFault::Memory,
        }
    }
}
