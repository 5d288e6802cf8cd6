// Why a packet does not leave.
ghost use Rattle.std.specs.Prelude.{◌≡◌};
ghost use Rattle.encap.specs.declared.fault.EncapDrop.TheVariants.{Memory};

use octets::NoMemory;

/// Why a packet is not sent.
#[derive(Clone, Copy, Debug, PartialEq, Eq)]
pub enum EncapDrop {
    /// Its TTL or Hop Limit is at most 1.
    TtlExpired,
    /// With the outer headers it would have more than `MOST_TUNNEL_OCTETS`.
    TooBig,
    /// An allocation failed.
    Memory,
}

impl From<NoMemory> for EncapDrop {
    ghost from_gives = { λ _ fault. fault ≡ Memory };

    fn from(_: NoMemory) -> Self {
        EncapDrop::Memory
    }
}
