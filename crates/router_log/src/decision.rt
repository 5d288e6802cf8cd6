// Decisions on data packets.
use crate::{Notices, Verdict};

/// The decision on a data packet: its verdict, and the notices that come with it, in order.
#[derive(Debug, Drop)]
pub struct Decision {
    pub verdict: Verdict,
    pub notices: Notices,
}
