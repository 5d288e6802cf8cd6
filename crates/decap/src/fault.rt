// Why a packet does not come out of its tunnel.
ghost use Rattle.std.specs.Prelude.{◌≡◌};
ghost use Rattle.decap.specs.declared.fault.DecapDrop.TheVariants.{Memory};
ghost use Rattle.decap.specs.declared.fault.OpenDrop.TheVariants as drops;

use octets::{NoMemory, Refused};

/// Why a tunnel packet is not opened.
#[derive(Clone, Copy, Debug, PartialEq, Eq)]
pub enum OpenDrop {
    /// Its octets are malformed.
    Refused(Refused),
    /// The key bits of the LISP header are not 0, so the packet inside is encrypted (RFC 8061).
    Encrypted,
}

impl From<Refused> for OpenDrop {
    ghost from_gives = { λ refused drop. drop ≡ drops.Refused refused };

    fn from(refused: Refused) -> Self {
        OpenDrop::Refused(refused)
    }
}

/// Why a packet that was opened is not delivered.
#[derive(Clone, Copy, Debug, PartialEq, Eq)]
pub enum DecapDrop {
    /// The tunnel marked congestion on a packet whose ends don't use ECN.
    CongestionMark,
    /// The lesser of both TTLs or Hop Limits is at most 1.
    TtlExpired,
    /// An allocation failed.
    Memory,
}

impl From<NoMemory> for DecapDrop {
    ghost from_gives = { λ _ drop. drop ≡ Memory };

    fn from(_: NoMemory) -> Self {
        DecapDrop::Memory
    }
}
