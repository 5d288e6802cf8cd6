// The answers of a table's calls.
ghost use Rattle.std.specs.Prelude.{◌≡◌, ◌∷◌, [], IfOk};

use crate::Table;
use octets::{Items, NoMemory};
use router_log::{Emits, Entries, Verdict};
use std::alloc::Global;

/// The outcome of a control message: the verdict, the entries that were applied, and the emits to
/// be sent.
#[derive(Debug, Drop)]
pub struct Heard {
    pub verdict: Verdict,
    pub entries: Entries,
    pub emits: Emits,
}

/// The outcome of a notice or a second: the entries that were applied, and the emits to be sent.
#[derive(Debug, Drop)]
pub struct Changed {
    pub entries: Entries,
    pub emits: Emits,
}

impl Table {
    /// A change with these entries and without emits.
    pub(crate) fn quiet(&self, entries: Entries) -> Changed
        ensures { result ≡ record { entries = entries; emits = [] } }
    {
        Changed {
            entries,
            emits: Items::new(self.alloc),
        }
    }

    /// A change without entries and without emits.
    pub(crate) fn nothing(&self) -> Changed
        ensures { result ≡ record { entries = []; emits = [] } }
    {
        Changed {
            entries: Items::new(self.alloc),
            emits: Items::new(self.alloc),
        }
    }
}

/// A list of one item.
pub(crate) fn only<T: Drop>(alloc: Global, item: T) -> Result<Items<T>, NoMemory>
    ensures { IfOk result (λ items. items ≡ item ∷ []) }
{
    let mut items = Items::new(alloc);
    items.push(item)?;
    Ok(items)
}
