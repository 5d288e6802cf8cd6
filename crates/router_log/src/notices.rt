// The notices of a decision.
ghost use Rattle.std.specs.Prelude.{◌≡◌, [], ◌∷◌, ◌++◌, OnOk, OnErr};

use crate::{NoMemory, Notice};
use octets::Items;
use std::alloc::Global;
use std::marker::Model;

/// Notices, in order. Beside them stands a hint for whoever notes them, which saves a look-up and
/// decides nothing: the name under which the map-cache kept the mapping in force for the source of
/// the packet. So contracts see the notices alone.
#[derive(Debug, Drop)]
pub struct Notices {
    items: Items<Notice>,
    found: Option<u32>,
}

impl Model for Notices {
    ghost use Rattle.std.specs.Prelude.{List};
    ghost use Rattle.router_log.specs.declared.notice.Notice.{Notice};

    ghost Value = { List Notice };

    ghost view = { λ notices. notices.items };
}

impl Notices {
    /// No notices, and no name. Takes no memory.
    pub fn new(alloc: Global) -> Notices
        ensures { result ≡ [] }
    {
        Notices {
            items: Items::new(alloc),
            found: None,
        }
    }

    /// Adds a notice at the end.
    pub fn push(&mut self, notice: Notice) -> Result<(), NoMemory>
        ensures ok { OnOk result (self.new ≡ self.old ++ notice ∷ []) }
        ensures err { OnErr result (self.new ≡ self.old) }
    {
        self.items.push(notice)
    }

    /// The notices, in order.
    pub fn as_slice(&self) -> &[Notice]
        ensures { result.now ≡ self.now }
    {
        self.items.as_slice()
    }

    /// Keeps the name under which the mapping in force was found.
    pub fn found_at(&mut self, name: u32)
        ensures { self.new ≡ self.old }
    {
        self.found = Some(name);
    }

    /// The name under which the mapping in force was found, or None. It may be that of another
    /// mapping by now, or of none.
    pub fn found(&self) -> Option<u32> {
        self.found
    }
}
