// The lines and packets of a round.
use crate::door::Look;
use octets::{Items, Octets};
use router_log::Verdict;

/// The report's line of a frame in a round.
#[derive(Drop)]
pub struct Line {
    /// The frame's place in its capture, from 1 on.
    pub number: u32,
    /// The frame's moment, in nanoseconds since 1970.
    pub moment: u64,
    /// The number of entries by which the frame was heard or decided.
    pub n: u64,
    pub verdict: Verdict,
    /// The receipt of the look by which a forwarder decided a data packet. None for a control message,
    /// and where the caller's own table decided.
    pub look: Option<Look>,
}

/// A packet that a round sends.
#[derive(Drop)]
pub struct Packet {
    /// The packet's moment, in nanoseconds since 1970.
    pub moment: u64,
    /// The packet's octets, with its IP header.
    pub octets: Octets,
}

/// Lines, in frame order.
pub type Lines = Items<Line>;

/// Packets, in the order in which they are written.
pub type Packets = Items<Packet>;

/// All lines and packets of a round.
#[derive(Drop)]
pub struct RoundDone {
    /// A line for each frame.
    pub lines: Lines,
    /// The packets of seconds and frames in order, and then those of the notices of data packets.
    pub written: Packets,
}
