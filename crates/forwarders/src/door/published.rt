// The published table, in the hands of its one writer.
ghost use Rattle.std.specs.Prelude.{◌≡◌, ◌+◌, ◌^◌, ◌<◌, IsTrue, nat_le, List, [], ◌∷◌, ◌++◌, drop, IfSome, IfNone, OnOk, OnErr};
ghost use Rattle.left_right.specs.Sides.{view as known};
ghost use Rattle.router_log.specs.declared.entry.Entry.{Entry as EntryValue};
ghost use Rattle.router_model.specs.Journal.{extended};
ghost use Rattle.router_model.specs.Proper.{fits};
ghost use Rattle.forwarders.specs.Batches.{Along, Begins, count_of, journal_of};
ghost use Rattle.forwarders.specs.Keeping.{GoesOn, Shows};
ghost use Rattle.forwarders.specs.Looks.{Covers};
ghost use Rattle.forwarders.specs.Views.{entries_of, publication_of};

use super::copies::copied_entry;
use super::forwarder::Forwarder;
use super::keeping::{Learning, ShownWriter, Telling};
use super::looks::Look;
use super::publishing::{appended, planned, published};
use super::tally::Tally;
use core::mem::replace_with;
use octets::NoMemory;
use router_log::{Entries, Entry};
use std::alloc::Global;
use std::marker::Model;
use std::sync::Wait;

/// The published table, in the hands of its one writer. It ends by `close` alone.
pub struct Published {
    alloc: Global,
    writer: ShownWriter,
}

impl Model for Published {
    ghost use Rattle.std.specs.Prelude.{drop};
    ghost use Rattle.left_right.specs.Sides.{view as known};
    ghost use Rattle.forwarders.specs.Keeping.{GoesOn, Shows};
    ghost use Rattle.forwarders.specs.Publication.{Publication};
    ghost use Rattle.forwarders.specs.Views.{entries_of, publication_of};

    ghost Value = { Publication };

    ghost view = { λ p. publication_of (known p.writer.desk.place)
        (entries_of (drop p.writer.behind p.writer.log.items)) };

    ghost invariant = { λ p. Shows p.writer.desk.shown.value.parts (known p.writer.desk.place)
        × GoesOn (known p.writer.desk.place)
        (entries_of (drop p.writer.behind p.writer.log.items)) };
}

impl Published {
    // A published table of a writer that has a list, without pending entries.
    pub(super) fn over(alloc: Global, writer: ShownWriter) -> Published
        requires shows { Shows writer.desk.shown.value.parts (known writer.desk.place) }
        requires none { drop writer.behind writer.log.items ≡ [] }
        ensures { result ≡ publication_of (known writer.desk.place) [] }
    {
        Published { alloc, writer }
    }

    /// Makes the plan longer by batches. Publications have to follow the plan.
    pub fn plan(&mut self, batches: &[Entries])
        ensures { self.new ≡ record self.old { plan = self.old.plan ++ batches.now } }
    {
        planned(&mut self.writer, batches);
    }

    /// A forwarder that has seen all that is published, and has learned the whole plan. None where
    /// its place was refused, which the tally counts.
    pub fn forwarder(&mut self, tally: &mut Tally) -> Option<Forwarder>
        requires tally { tally.old < 2 ^ 63 }
        ensures kept { self.new ≡ self.old }
        ensures made { IfSome result (λ forwarder. forwarder ≡ record {
          settings = self.old.settings;
          seen = self.old.batches;
          plan = self.old.plan;
        }) }
        ensures same { IfSome result (λ _. tally.new ≡ tally.old) }
        ensures refused { IfNone result (tally.new ≡ tally.old + 1) }
    {
        let Ok(mut reader) = self.writer.factory().reader() else {
            tally.raise();
            return None;
        };
        reader.learn::<Learning>(self.writer.tell::<Telling>());
        Some(Forwarder::over(reader))
    }

    /// Adds an entry behind the pending ones. No reader sees it yet.
    pub fn append(&mut self, entry: &Entry) -> Result<(), NoMemory>
        requires { IsTrue (fits self.old.settings
            (extended (journal_of self.old.batches) self.old.pending) entry.now) }
        ensures ok { OnOk result (self.new
            ≡ record self.old { pending = self.old.pending ++ entry.now ∷ [] }) }
        ensures err { OnErr result (self.new ≡ self.old) }
    {
        let entry = copied_entry(self.alloc, entry)?;
        appended(&mut self.writer, entry)
    }

    /// Publishes the pending entries at once, as the next batch of the plan. Waits for readers that
    /// are still in the other copy. A refusal leaves all as it was.
    pub fn publish<R: Wait>(&mut self, rt: &R) -> Result<(), NoMemory>
        requires { Begins (self.old.batches ++ self.old.pending ∷ []) self.old.plan }
        ensures ok { OnOk result (self.new ≡ record self.old {
          batches = self.old.batches ++ self.old.pending ∷ [];
          pending = [];
        }) }
        ensures err { OnErr result (self.new ≡ self.old) }
    {
        match replace_with(&mut self.writer, rt, published::<R>) {
            Ok(()) => Ok(()),
            Err(_) => Err(NoMemory),
        }
    }

    /// The number of published entries.
    pub fn count(&self) -> u64
        ensures { result ≡ count_of self.now.batches }
    {
        self.writer.published().table().count()
    }

    /// Whether the list that a look found has no more entries than the published one. If that list
    /// goes along what is published, its entries are then the first ones of the journal.
    #[tactic(auto, using(crate::proofs::LookLemmas::covered))]
    pub fn covers(&self, look: &Look) -> bool
        ensures test { result ≡ nat_le look.now (count_of self.now.batches) }
        ensures law { IsTrue result → (seen : List (List EntryValue))
            → Along seen self.now.batches → look.now ≡ count_of seen
            → Covers seen self.now.batches }
    {
        look.count() <= self.count()
    }

    /// Ends the publication. Waits for readers that are still in a copy.
    pub fn close<R: Wait>(self, rt: &R) {
        let Published { alloc: _, writer } = self;
        writer.take(rt);
    }
}
