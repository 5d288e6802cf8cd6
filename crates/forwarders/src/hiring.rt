// The forwarders of a round, and its batches, published beside them.
ghost use Rattle.std.specs.Prelude.{◌≡◌, ◌+◌, ◌^◌, ◌<◌, ◌≤◌, List, [], ◌++◌, length, take, All, IfOk, OnOk};
ghost use Rattle.std.specs.Thread.{IsSync};
ghost use Rattle.command_words.specs.Limits.{most_workers};
ghost use Rattle.lisp_settings.specs.Lawful.{IsLawful};
ghost use Rattle.router_log.specs.declared.entry.Entry.{Entry as EntryValue};
ghost use Rattle.router_model.specs.Proper.{IsProper};
ghost use Rattle.forwarders.specs.Batches.{Begins, journal_of};
ghost use Rattle.forwarders.specs.Deciding.{AreAllDealt, AreWithin, HasSeen, HaveAnswered, IsFresh, IsHired};

use crate::batches::publish_all;
use crate::door::{Published, Tally};
use crate::gate::Gate;
use crate::round_begun::Round;
use crate::workers::Worker;
use crate::working::work_all;
use octets::NoMemory;
use router_log::Entries;
use std::alloc::Global;
use std::sync::Wait;
use std::thread::{Threads, join_mut};

// Makes so many workers, or fewer by as many as were refused a place, which the tally counts.
fn hired(
    alloc: Global,
    published: &mut Published,
    count: usize,
    tally: &mut Tally,
) -> Result<Vec<Worker>, NoMemory>
    requires { tally.old + count < 2 ^ 63 }
    ensures same { published.new ≡ published.old }
    ensures tally { tally.new ≤ tally.old + count }
    ensures number { IfOk result (λ workers. length workers.items + tally.new ≡ count + tally.old) }
    ensures hired { IfOk result (λ workers. All (IsHired published.old) workers.items) }
{
    let mut workers = Vec::new(alloc);
    for _ in 0..count {
        if let Some(forwarder) = published.forwarder(tally) {
            workers.push(Worker {
                forwarder,
                tally: Tally::new(),
                answers: Vec::new(alloc),
            })?;
        }
    }
    Ok(workers)
}

// Publishes the batches of a round while the workers decide its data packets.
fn beside<R: Threads + Wait + Sync, G: Gate>(
    round: &Round<'_, R, G>,
    published: &mut Published,
    batches: &[Entries],
    places: &[usize],
    workers: &mut [Worker],
) -> Result<(), NoMemory>
    requires lawful { IsLawful round.now.settings.now }
    requires places { AreWithin round.now.frames.now places.now }
    requires number { (length workers.old ≤ most_workers) × (length places.now < 2 ^ 61) }
    requires fresh { All (IsFresh round.now.settings.now) workers.old }
    requires none { published.old.pending ≡ [] }
    requires stands { IsProper published.old.settings (journal_of published.old.batches) }
    requires proper { IsProper published.old.settings
        (journal_of (published.old.batches ++ batches.now)) }
    requires next { Begins (published.old.batches ++ batches.now) published.old.plan }
    ensures length { length workers.new ≡ length workers.old }
    ensures decided { (first plan : List (List EntryValue))
        → All (HasSeen round.now.settings.now first plan) workers.old
        → HaveAnswered round.now.settings.now first plan round.now.frames.now places.now workers.new }
    ensures dealt { AreAllDealt workers.new }
    ensures published { OnOk result (published.new
        ≡ record published.old { batches = published.old.batches ++ batches.now }) }
{
    let rt = round.rt;
    let (_, done) = join_mut(
        rt,
        &mut ||
            requires { IsSync R.row × IsLawful round.now.settings.now
                × AreWithin round.now.frames.now places.now
                × (length workers.now ≤ most_workers) × (length places.now < 2 ^ 61)
                × All (IsFresh round.now.settings.now) workers.now }
            ensures { (length workers.exit.now ≡ length workers.entry.now)
                × ((first plan : List (List EntryValue))
                → All (HasSeen round.entry.now.settings.now first plan) workers.entry.now
                → HaveAnswered round.entry.now.settings.now first plan round.entry.now.frames.now
                places.entry.now workers.exit.now)
                × AreAllDealt workers.exit.now }
        { work_all(round, places, workers) },
        &mut || publish_all(rt, published, batches),
    );
    done
}

// Publishes batches, beside the workers where there are any.
fn publish_beside<R: Threads + Wait + Sync, G: Gate>(
    round: &Round<'_, R, G>,
    published: &mut Published,
    batches: &[Entries],
    places: &[usize],
    workers: &mut Vec<Worker>,
) -> Result<(), NoMemory>
    requires lawful { IsLawful round.now.settings.now }
    requires places { AreWithin round.now.frames.now places.now }
    requires number { (length workers.old.items ≤ most_workers) × (length places.now < 2 ^ 61) }
    requires fresh { All (IsFresh round.now.settings.now) workers.old.items }
    requires none { published.old.pending ≡ [] }
    requires stands { IsProper published.old.settings (journal_of published.old.batches) }
    requires proper { IsProper published.old.settings
        (journal_of (published.old.batches ++ batches.now)) }
    requires next { Begins (published.old.batches ++ batches.now) published.old.plan }
    ensures decided { (first plan : List (List EntryValue))
        → All (HasSeen round.now.settings.now first plan) workers.old.items
        → HaveAnswered round.now.settings.now first plan
        round.now.frames.now places.now workers.new.items }
    ensures dealt { AreAllDealt workers.new.items }
    ensures published { OnOk result (published.new
        ≡ record published.old { batches = published.old.batches ++ batches.now }) }
{
    if workers.is_empty() {
        return publish_all(round.rt, published, batches);
    }
    beside(round, published, batches, places, workers.as_mut_slice())
}

/// Publishes the batches of a round: the first `from`, those of the seconds before its first frame,
/// and then the others while the workers decide its data packets. Returns the workers, with their
/// answers.
pub(crate) fn publish_round<R: Threads + Wait + Sync, G: Gate>(
    round: &Round<'_, R, G>,
    published: &mut Published,
    batches: &[Entries],
    from: usize,
    places: &[usize],
) -> Result<Vec<Worker>, NoMemory>
    requires lawful { IsLawful round.now.settings.now }
    requires settings { published.old.settings ≡ round.now.settings.now }
    requires places { AreWithin round.now.frames.now places.now }
    requires number { (round.now.workers ≤ most_workers) × (length places.now < 2 ^ 61) }
    requires from { from ≤ length batches.now }
    requires none { published.old.pending ≡ [] }
    requires plan { published.old.plan ≡ published.old.batches ++ batches.now }
    requires stands { IsProper round.now.settings.now (journal_of published.old.batches) }
    requires proper { IsProper round.now.settings.now
        (journal_of (published.old.batches ++ batches.now)) }
    ensures published { OnOk result (published.new
        ≡ record published.old { batches = published.old.batches ++ batches.now }) }
    ensures answered { IfOk result (λ workers. HaveAnswered round.now.settings.now
        (published.old.batches ++ take from batches.now) (published.old.batches ++ batches.now)
        round.now.frames.now places.now workers.items) }
    ensures dealt { IfOk result (λ workers. AreAllDealt workers.items) }
{
    let (first, others) = batches.split_at(from);
    publish_all(round.rt, published, first)?;
    let most = places.len().min(round.workers as usize);
    let mut tally = Tally::new();
    let mut workers = hired(round.alloc, published, most, &mut tally)?;
    publish_beside(round, published, others, places, &mut workers)?;
    Ok(workers)
}
