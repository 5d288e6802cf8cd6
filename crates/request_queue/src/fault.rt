// Why a request wasn't taken.
ghost use Rattle.std.specs.Prelude.{◌≡◌};
ghost use Rattle.request_queue.specs.declared.fault.AskFault.TheVariants.{Memory};

use octets::NoMemory;

/// Why a request wasn't added. Only the purge has taken place.
#[derive(Clone, Copy, Debug, PartialEq, Eq)]
pub enum AskFault {
    /// As many requests are open for the EID's instance as it may have.
    QueueFull,
    /// An allocation was refused.
    Memory,
}

impl From<NoMemory> for AskFault {
    ghost from_gives = { λ _ fault. fault ≡ Memory };

    fn from(_: NoMemory) -> Self {
        AskFault::Memory
    }
}
