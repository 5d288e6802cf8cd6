// Why a mapping wasn't learned.
ghost use Rattle.std.specs.Prelude.{◌≡◌};
ghost use Rattle.map_cache.specs.declared.fault.LearnFault.TheVariants.{Memory};

use octets::NoMemory;

/// Why a mapping wasn't learned. Only the purge has taken place.
#[derive(Clone, Copy, Debug, PartialEq, Eq)]
pub enum LearnFault {
    /// As many mappings of other EIDs are live as may be, in all or in the mapping's instance.
    CacheFull,
    /// An allocation was refused.
    Memory,
}

impl From<NoMemory> for LearnFault {
    ghost from_gives = { λ _ fault. fault ≡ Memory };

    fn from(_: NoMemory) -> Self {
        LearnFault::Memory
    }
}
