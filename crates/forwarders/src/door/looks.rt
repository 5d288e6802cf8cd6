// The results of a look at the published table.
ghost use Rattle.std.specs.Prelude.{◌≡◌};

use router_log::Decision;
use std::marker::Model;

/// The receipt of one look at the published table.
#[derive(Drop)]
pub struct Look {
    pub(super) count: u64,
}

impl Model for Look {
    ghost use Rattle.std.specs.Prelude.{ℕ};

    ghost Value = { ℕ };

    ghost view = { λ look. look.count };
}

impl Look {
    /// The number of entries of the list that was looked at.
    pub fn count(&self) -> u64
        ensures { result ≡ self.now }
    {
        self.count
    }
}

/// The decision of a forwarder, and the receipt of the look by which it was made.
#[derive(Drop)]
pub struct Forwarded {
    pub look: Look,
    pub decision: Decision,
}

/// Why a forwarder has no decision.
#[derive(Clone, Copy, Debug, PartialEq, Eq)]
pub enum ForwardFault {
    /// The look was refused, which the tally counts.
    NotEntered,
    /// The decision was refused memory.
    Memory,
}
