// The batches of a round, published one after another.
ghost use Rattle.std.specs.Prelude.{◌≡◌, [], ◌∷◌, ◌++◌, OnOk};
ghost use Rattle.router_model.specs.Journal.{extended};
ghost use Rattle.router_model.specs.Proper.{IsProper};
ghost use Rattle.forwarders.specs.Batches.{Begins, journal_of};

use crate::door::Published;
use octets::NoMemory;
use router_log::{Entries, Entry};
use std::sync::Wait;

// Publishes entries as one batch.
fn publish_batch<R: Wait>(
    rt: &R,
    published: &mut Published,
    batch: &[Entry],
) -> Result<(), NoMemory>
    requires none { published.old.pending ≡ [] }
    requires stands { IsProper published.old.settings (journal_of published.old.batches) }
    requires proper { IsProper published.old.settings
        (extended (journal_of published.old.batches) batch.now) }
    requires next { Begins (published.old.batches ++ batch.now ∷ []) published.old.plan }
    ensures { OnOk result (published.new
        ≡ record published.old { batches = published.old.batches ++ batch.now ∷ [] }) }
{
    for entry in batch {
        published.append(entry)?;
    }
    published.publish(rt)
}

/// Publishes batches one after another, in the order of the plan.
#[tactic(auto, using(crate::proofs::PlanLemmas::next_batch))]
pub(crate) fn publish_all<R: Wait>(
    rt: &R,
    published: &mut Published,
    batches: &[Entries],
) -> Result<(), NoMemory>
    requires none { published.old.pending ≡ [] }
    requires stands { IsProper published.old.settings (journal_of published.old.batches) }
    requires proper { IsProper published.old.settings
        (journal_of (published.old.batches ++ batches.now)) }
    requires next { Begins (published.old.batches ++ batches.now) published.old.plan }
    ensures { OnOk result (published.new
        ≡ record published.old { batches = published.old.batches ++ batches.now }) }
{
    for batch in batches {
        publish_batch(rt, published, batch.as_slice())?;
    }
    Ok(())
}
