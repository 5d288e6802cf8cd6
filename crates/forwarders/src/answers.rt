// The answers of workers, taken in the order of the data packets.
ghost use Rattle.std.specs.Prelude.{◌≡◌, length};
ghost use Rattle.forwarders.specs.Deciding.{AreAllDealt, IsTaken, IsTakenOfAll};

use crate::door::Forwarded;
use crate::workers::{Answer, Worker};

// Takes a worker's decision in the answer at a place, if that answer is for the data packet at this
// index.
fn take_of(worker: &mut Worker, place: usize, index: usize) -> Option<Forwarded>
    ensures { IsTaken worker.old.answers.items place index result worker.new.answers.items }
{
    take_answer(worker.answers.as_mut_slice(), place, index)
}

// Takes the decision in the answer at a place, if that answer is for the data packet at this index.
fn take_answer(answers: &mut [Answer], place: usize, index: usize) -> Option<Forwarded>
    ensures { IsTaken answers.old place index result answers.new }
{
    if place < answers.len() && answers[place].index == index {
        answers[place].forwarded.take()
    } else {
        None
    }
}

/// Takes the decision on a data packet from the worker to which the packet fell. None where there
/// is no decision.
pub(crate) fn take_forwarded(workers: &mut [Worker], index: usize) -> Option<Forwarded>
    requires dealt { AreAllDealt workers.old }
    ensures length { length workers.new ≡ length workers.old }
    ensures taken { IsTakenOfAll workers.old index result workers.new }
{
    if workers.is_empty() {
        return None;
    }
    let count = workers.len();
    take_of(&mut workers[index % count], index / count, index)
}
