// A round of a replay.
ghost use Rattle.std.specs.Prelude.{◌≡◌, ◌+◌, ◌*◌, ◌^◌, ◌<◌, ◌≤◌, [], ◌++◌, length, map, take, All, IfOk, OnOk};
ghost use Rattle.std.specs.List.{AllZip};
ghost use Rattle.command_words.specs.Limits.{most_round_frames, most_workers};
ghost use Rattle.lisp_settings.specs.Lawful.{IsLawful};
ghost use Rattle.capture_events.specs.Events.{events_after};
ghost use Rattle.router_core.specs.Steps.{HasTicked};
ghost use Rattle.router_model.specs.Journal.{extended};
ghost use Rattle.router_model.specs.Lifting.{FramesInOrder};
ghost use Rattle.router_model.specs.Limits.{most_entries};
ghost use Rattle.router_model.specs.Parts.{Stands};
ghost use Rattle.router_model.specs.Proper.{IsProper};
ghost use Rattle.router_model.specs.Rounds.{closing_moment};
ghost use Rattle.forwarders.specs.Batches.{count_of, journal_of};
ghost use Rattle.forwarders.specs.Deciding.{AreWithin};
ghost use Rattle.forwarders.specs.Finishing.{Finishes, MayNote, noted_of};
ghost use Rattle.forwarders.specs.Gathering.{left_in};
ghost use Rattle.forwarders.specs.Rounding.{AreWritable, GrewBy, HasCome, IsAtRest, IsRound, MayRun, RunsRound, begun_at, last_length};
ghost use Rattle.forwarders.specs.Ruling.{AreRuled, HaveLooked};

use crate::door::Published;
use crate::gate::Gate;
use crate::gathering::Written;
use crate::hiring::publish_round;
use crate::notices::note_round;
use crate::putting::put_together;
use crate::round_begun::Round;
use crate::round_done::{Lines, Packets, RoundDone};
use crate::ruling::{Ruled, rule_all};
use crate::writing::write_round;
use octets::NoMemory;
use router_core::Table;
use std::collections::VecDeque;
use std::sync::Wait;
use std::thread::Threads;

// Publishes the batches of a round while its workers decide its data packets; the first `from`
// batches are those of the seconds before the first frame. Returns the ruling of each data packet.
fn decide_round<R: Threads + Wait + Sync, G: Gate>(
    round: &Round<'_, R, G>,
    table: &Table,
    published: &mut Published,
    from: usize,
    written: &Written,
) -> Result<Vec<Ruled>, NoMemory>
    requires lawful { IsLawful round.now.settings.now }
    requires workers { round.now.workers ≤ most_workers }
    requires places { AreWithin round.now.frames.now written.now.places }
    requires number { length written.now.places < 2 ^ 61 }
    requires from { from ≤ length written.now.batches }
    requires rest { IsAtRest round.now.settings.now published.old }
    requires stands { Stands round.now.settings.now table.now.parts
        (journal_of (published.old.batches ++ written.now.batches)) }
    ensures published { OnOk result (published.new ≡ record published.old {
      batches = published.old.batches ++ written.now.batches;
      plan = published.old.batches ++ written.now.batches;
    }) }
    ensures ruled { IfOk result (λ ruled. AreRuled round.now.settings.now
        (published.old.batches ++ take from written.now.batches)
        (published.old.batches ++ written.now.batches)
        round.now.frames.now written.now.places ruled.items) }
    ensures looked { IfOk result (λ ruled. HaveLooked
        (count_of (published.old.batches ++ written.now.batches)) ruled.items) }
{
    let batches = written.batches.as_slice();
    let places = written.places.as_slice();
    published.plan(batches);
    let mut workers = publish_round(round, published, batches, from, places)?;
    rule_all(round, table, published, places, workers.as_mut_slice())
}

// Notes the notices of the data packets, and puts lines and packets together.
fn finish_round<R: Wait, G>(
    round: &Round<'_, R, G>,
    table: &mut Table,
    published: &mut Published,
    ruled: Vec<Ruled>,
    written: &mut Written,
    done: &mut RoundDone,
) -> Result<(), NoMemory>
    requires lawful { IsLawful round.now.settings.now }
    requires some { 1 ≤ length round.now.frames.now }
    requires left { left_in written.old.items.items ≡ length ruled.items }
    requires may { MayNote (closing_moment round.now.frames.now) table.old.parts ruled.items }
    requires rest { IsAtRest round.now.settings.now published.old }
    requires proper { IsProper round.now.settings.now (extended (journal_of published.old.batches)
        (noted_of round.now.settings.now (closing_moment round.now.frames.now) table.old.parts ruled.items).entries) }
    ensures finishes { OnOk result (Finishes round.now.settings.now (closing_moment round.now.frames.now) ruled.items
        table.old.parts published.old written.old done.old
        table.new.parts published.new done.new) }
{
    note_round(
        round,
        table,
        published,
        ruled.as_slice(),
        &mut written.items,
    )?;
    let mut ruled = VecDeque::from_vec(ruled);
    put_together(round.alloc, &mut written.items, &mut ruled, done)
}

// Works a round of which no item is gathered, and no line or packet made.
fn work_round<R: Threads + Wait + Sync, G: Gate>(
    round: &Round<'_, R, G>,
    table: &mut Table,
    published: &mut Published,
    written: &mut Written,
    done: &mut RoundDone,
) -> Result<(), NoMemory>
    requires lawful { IsLawful round.now.settings.now }
    requires workers { round.now.workers ≤ most_workers }
    requires run { MayRun round.now.settings.now round.now.previous round.now.frames.now
        table.old.parts published.old.batches }
    requires rest { IsAtRest round.now.settings.now published.old }
    requires empty { (written.old.items.items ≡ []) × (written.old.batches ≡ [])
        × (written.old.places ≡ []) }
    requires undone { (done.old.lines ≡ []) × (done.old.written ≡ []) }
    ensures { OnOk result (RunsRound round.now.settings.now round.now.previous round.now.frames.now
        published.old published.new table.old.parts table.new.parts done.new) }
{
    let from = write_round(round.settings, table, round.previous, round.frames, written)?;
    let ruled = decide_round(round, table, published, from, written)?;
    finish_round(round, table, published, ruled, written, done)
}

/// Works one round of a replay. The table takes its seconds and control messages first, in order,
/// and their entries are published batch by batch. Beside that at most `workers` workers, in
/// threads of their own, decide its data packets, each by looks at the table that is published
/// then; where no worker decided, the caller's table decides. The notices of the data packets are
/// noted last, at the last frame's moment, and their entries are published as one batch.
///
/// The table stands for all that is published, before and after. With no worker, and in a
/// round without data packets, no thread is made. After a refusal the table may have taken a part
/// of the round, published or not; table and publication can then only be closed.
pub fn run_round<R: Threads + Wait + Sync, G: Gate>(
    round: &Round<'_, R, G>,
    table: &mut Table,
    published: &mut Published,
) -> Result<RoundDone, NoMemory>
    requires lawful { IsLawful round.now.settings.now }
    requires settings { published.old.settings ≡ round.now.settings.now }
    requires workers { round.now.workers ≤ most_workers }
    requires stands { Stands round.now.settings.now table.old.parts
        (journal_of published.old.batches) }
    requires none { published.old.pending ≡ [] }
    requires plan { published.old.plan ≡ published.old.batches }
    requires number { (1 ≤ length round.now.frames.now)
        × (length round.now.frames.now ≤ most_round_frames) }
    requires order { FramesInOrder (begun_at round.now.previous round.now.frames.now)
        round.now.frames.now }
    requires moments { All (λ frame. frame.moment < 2 ^ 32 * 1000000000) round.now.frames.now }
    requires later { table.old.parts.now ≤ begun_at round.now.previous round.now.frames.now }
    requires count { table.old.parts.count < 2 ^ 60 }
    ensures round { IfOk result (λ done. IsRound round.now.settings.now round.now.previous
        round.now.frames.now published.old published.new table.new.parts done) }
    ensures published { OnOk result (GrewBy published.old published.new) }
    ensures looks { IfOk result (λ done. AllZip (HasCome round.now.settings.now
        (last_length round.now.settings.now round.now.previous round.now.frames.now published.old))
        round.now.frames.now done.lines) }
    ensures entered { OnOk result (HasTicked
        (most_entries * length (events_after round.now.previous round.now.frames.now))
        (closing_moment round.now.frames.now) table.old.parts table.new.parts) }
    ensures packets { IfOk result (λ done. AreWritable
        (length (events_after round.now.previous round.now.frames.now)) done.written) }
{
    let mut written = Written::new(round.alloc);
    let mut done = RoundDone {
        lines: Lines::new(round.alloc),
        written: Packets::new(round.alloc),
    };
    work_round(round, table, published, &mut written, &mut done)?;
    Ok(done)
}
