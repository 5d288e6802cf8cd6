// Forwarders decide the data packets of a round, each in its turns.
ghost use Rattle.std.specs.Prelude.{◌≡◌, ◌+◌, ◌^◌, ◌<◌, ◌≤◌, List, length, All, IfSome};
ghost use Rattle.command_words.specs.Limits.{most_workers};
ghost use Rattle.lisp_settings.specs.Lawful.{IsLawful};
ghost use Rattle.router_log.specs.declared.entry.Entry.{Entry as EntryValue};
ghost use Rattle.forwarders.specs.Batches.{Begins};
ghost use Rattle.forwarders.specs.Deciding.{AreAllDealt, AreDealt, AreWithin, Decides, HasSeen, HaveAnswered, IsAnswer, IsFresh};

use crate::door::{Forwarded, Forwarder, Tally};
use crate::gate::Gate;
use crate::round_begun::Round;
use crate::workers::{Answer, Worker};
use capture_io::Frame;
use lisp_settings::Settings;
use std::thread::{Threads, for_each_mut};

// The forwarder's decision on a frame, at the frame's moment. None where it has no decision.
fn answer(
    forwarder: &mut Forwarder,
    tally: &mut Tally,
    settings: &Settings,
    frame: &Frame,
) -> Option<Forwarded>
    requires lawful { IsLawful settings.now }
    requires settings { settings.now ≡ forwarder.old.settings }
    requires tally { tally.old < 2 ^ 63 }
    ensures settings { forwarder.new.settings ≡ forwarder.old.settings }
    ensures plan { forwarder.new.plan ≡ forwarder.old.plan }
    ensures rises { Begins forwarder.old.seen forwarder.new.seen }
    ensures decided { IfSome result
        (Decides settings.now forwarder.old.seen forwarder.old.plan frame.now) }
    ensures tally { tally.new ≤ tally.old + 1 }
{
    match forwarder.forward(settings, frame.moment, frame, tally) {
        Ok(forwarded) => Some(forwarded),
        Err(_) => None,
    }
}

// Lets a worker decide the data packets from the one at `start` on, each `step` further. Stops
// where memory for an answer is refused.
fn work<R, G: Gate>(
    round: &Round<'_, R, G>,
    places: &[usize],
    start: usize,
    step: usize,
    worker: &mut Worker,
)
    requires lawful { IsLawful round.now.settings.now }
    requires places { AreWithin round.now.frames.now places.now }
    requires numbers { (start < most_workers) × (0 < step) × (step ≤ most_workers)
        × (length places.now < 2 ^ 61) }
    requires fresh { IsFresh round.now.settings.now worker.old }
    ensures decided { All (IsAnswer round.now.settings.now worker.old.forwarder.seen
        worker.old.forwarder.plan round.now.frames.now places.now) worker.new.answers.items }
    ensures dealt { AreDealt start step worker.new.answers.items }
{
    let frames = round.frames;
    let mut index = start;
    while index < places.len() {
        let frame = &frames[places[index]];
        round.gate.before(start as u32, frame.number);
        let forwarded = answer(
            &mut worker.forwarder,
            &mut worker.tally,
            round.settings,
            frame,
        );
        if worker.answers.push(Answer { index, forwarded }).is_err() {
            return;
        }
        index += step;
    }
}

/// Lets the workers decide in threads of their own, each the data packets that fall to it in turn.
pub(crate) fn work_all<R: Threads + Sync, G: Gate>(
    round: &Round<'_, R, G>,
    places: &[usize],
    workers: &mut [Worker],
)
    requires lawful { IsLawful round.now.settings.now }
    requires places { AreWithin round.now.frames.now places.now }
    requires number { (length workers.old ≤ most_workers) × (length places.now < 2 ^ 61) }
    requires fresh { All (IsFresh round.now.settings.now) workers.old }
    ensures length { length workers.new ≡ length workers.old }
    ensures decided { (first plan : List (List EntryValue))
        → All (HasSeen round.now.settings.now first plan) workers.old
        → HaveAnswered round.now.settings.now first plan round.now.frames.now places.now workers.new }
    ensures dealt { AreAllDealt workers.new }
{
    let step = workers.len();
    if step > 0 {
        for_each_mut(
            round.rt,
            workers,
            step,
            &|start, worker|
                requires { IsLawful round.now.settings.now × AreWithin round.now.frames.now places.now
                    × (start < most_workers) × (0 < step) × (step ≤ most_workers) × (length places.now < 2 ^ 61)
                    × IsFresh round.now.settings.now worker.now }
                ensures { All (IsAnswer round.entry.now.settings.now worker.entry.now.forwarder.seen
                    worker.entry.now.forwarder.plan round.entry.now.frames.now places.entry.now)
                    worker.exit.now.answers.items
                    × AreDealt start step worker.exit.now.answers.items }
            { work(round, places, start, step, worker) },
        );
    }
}
