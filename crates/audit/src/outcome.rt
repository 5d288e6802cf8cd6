// The outcome of the comparison of a capture with the packets that were due.

/// How the packets that were due and the records of a capture compare. Positions count both from 1
/// on.
#[derive(Clone, Copy, Debug, PartialEq, Eq)]
pub enum Outcome {
    /// Each record has the octets of the packet at its position, and there are as many records as
    /// packets.
    Same { packets: u64 },
    /// The first record whose packet isn't the due one, and the first offset at which the two
    /// differ, or the length of the shorter one.
    Differs { position: u64, place: u32 },
    /// The first packet for which there is no record.
    Missing { position: u64 },
    /// The first record for which there was no packet.
    Extra { position: u64 },
}
