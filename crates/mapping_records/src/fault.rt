// Why a record can't be read.
ghost use Rattle.std.specs.Prelude.{◌≡◌};
ghost use Rattle.mapping_records.specs.declared.fault.RecordFault.TheVariants as fault;

use octets::{NoMemory, Refused};

/// Why octets gave no record.
#[derive(Clone, Copy, Debug, PartialEq, Eq)]
pub enum RecordFault {
    /// A rule fails: the first one.
    Refused(Refused),
    /// An allocation was refused.
    Memory,
}

impl From<Refused> for RecordFault {
    ghost from_gives = { λ refused gives. gives ≡ fault.Refused refused };

    fn from(refused: Refused) -> Self {
        RecordFault::Refused(refused)
    }
}

impl From<NoMemory> for RecordFault {
    ghost from_gives = { λ _ gives. gives ≡ fault.Memory };

    fn from(_: NoMemory) -> Self {
        RecordFault::Memory
    }
}
