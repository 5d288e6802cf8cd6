// Forwarders at work.
use crate::door::{Forwarded, Forwarder, Tally};

/// An answer of a worker: the index of a data packet among those of the round, and the decision on
/// it, None where there is no decision.
#[derive(Drop)]
pub(crate) struct Answer {
    pub index: usize,
    pub forwarded: Option<Forwarded>,
}

/// A forwarder at work, with a tally of its own and its answers.
#[derive(Drop)]
pub(crate) struct Worker {
    pub forwarder: Forwarder,
    pub tally: Tally,
    pub answers: Vec<Answer>,
}
