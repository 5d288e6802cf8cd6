// A copy of the table, as readers and the writer share it.
ghost use Rattle.std.specs.Prelude.{◌≡◌, true, false, OnOk, OnErr};
ghost use Rattle.router_model.specs.Parts.{absorbed};

use octets::NoMemory;
use router_core::Table;
use router_log::Entry;
use std::marker::Model;

/// One of the two copies of the table.
#[derive(Drop)]
pub struct Shown {
    table: Table,
    // Whether the publication has begun.
    is_open: bool,
}

impl Model for Shown {
    ghost use Rattle.forwarders.specs.Publication.{Side};

    ghost Value = { Side };

    ghost view = { λ shown. record { parts = shown.table.parts; is_open = shown.is_open } };
}

impl Shown {
    /// A copy whose publication hasn't begun.
    pub fn new(table: Table) -> Shown
        ensures { result ≡ record { parts = table.parts; is_open = false } }
    {
        Shown {
            table,
            is_open: false,
        }
    }

    pub fn table(&self) -> &Table
        ensures { result.now.parts ≡ self.now.parts }
    {
        &self.table
    }

    /// Takes in an entry that the table admits. Any other entry leaves the copy as it was, and so
    /// does a refusal of memory.
    #[tactic(auto, unfolding(router_model::specs::Parts::absorbed))]
    pub fn absorb(&mut self, entry: &Entry) -> Result<(), NoMemory>
        ensures ok { OnOk result (self.new
            ≡ record self.old { parts = absorbed self.old.parts entry.now }) }
        ensures err { OnErr result (self.new ≡ self.old) }
    {
        if !self.table.admits(entry) {
            return Ok(());
        }
        self.table.apply(entry)
    }

    /// Marks that the publication has begun.
    pub fn open(&mut self)
        ensures { self.new ≡ record self.old { is_open = true } }
    {
        self.is_open = true;
    }
}
