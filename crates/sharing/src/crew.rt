// The workers of rounds.

/// The workers of a replay's rounds: how many forwarders there are, and how many frames a round has
/// at most.
#[derive(Drop)]
pub struct Crew<'a, R, G> {
    /// The runtime, which starts threads and waits for them.
    pub rt: &'a R,
    /// The gate, called before each decision of a forwarder.
    pub gate: &'a G,
    /// The number of forwarders, at most 16.
    pub workers: u32,
    /// The frames that make a round, at most 4,096.
    pub round: usize,
}
