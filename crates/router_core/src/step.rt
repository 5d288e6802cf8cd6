// A step of a table under way.
ghost use Rattle.std.specs.Prelude.{◌≡◌, ◌<◌, ◌++◌, ◌∷◌, [], IfOk, vec_capacity, vec_len};
ghost use Rattle.router_core.specs.Steps.{AreAdded, IsBegun};

use crate::Changed;
use crate::site::Site;
use octets::{Items, NoMemory};
use router_log::{Emit, Entry};
use std::alloc::Global;

/// A step of a table under way: the site as it stands, the moment in nanoseconds, the entries that
/// were applied so far, and the emits that are to be sent for them.
#[derive(Drop)]
pub(crate) struct Step<'s> {
    pub(crate) site: &'s Site<'s>,
    pub(crate) m: u64,
    pub(crate) entries: Vec<Entry>,
    pub(crate) emits: Vec<Emit>,
}

impl<'s> Step<'s> {
    /// A step without entries, with room for `most` entries and as many emits.
    pub(crate) fn begin(
        alloc: Global,
        site: &'s Site<'s>,
        m: u64,
        most: usize,
    ) -> Result<Step<'s>, NoMemory>
        ensures begun { IfOk result (IsBegun most site.now m) }
    {
        let mut entries = Vec::new(alloc);
        entries.reserve(most)?;
        let mut emits = Vec::new(alloc);
        emits.reserve(most)?;
        Ok(Step {
            site,
            m,
            entries,
            emits,
        })
    }

    /// Adds an entry that was applied, and the emit that is to be sent for it. Takes no memory.
    pub(crate) fn push(&mut self, entry: Entry, emit: Emit)
        requires entries { vec_len self.old.entries < vec_capacity self.old.entries }
        requires emits { vec_len self.old.emits < vec_capacity self.old.emits }
        ensures site { self.new.site.now ≡ self.old.site.now }
        ensures moment { self.new.m ≡ self.old.m }
        ensures entries { self.new.entries.items ≡ self.old.entries.items ++ entry ∷ [] }
        ensures emits { self.new.emits.items ≡ self.old.emits.items ++ emit ∷ [] }
        ensures one_entry { AreAdded 1 self.old.entries self.new.entries }
        ensures one_emit { AreAdded 1 self.old.emits self.new.emits }
    {
        self.entries.push_reserved(entry);
        self.emits.push_reserved(emit);
    }

    /// The outcome of the step.
    pub(crate) fn changed(self) -> Changed
        ensures { result
            ≡ record { entries = self.entry.entries.items; emits = self.entry.emits.items } }
    {
        Changed {
            entries: Items::from_vec(self.entries),
            emits: Items::from_vec(self.emits),
        }
    }
}
