// A mapping of the map-cache.
use mapping_records::{Eid, Record};

/// A mapping that was learned.
#[derive(Debug, Drop)]
pub struct Mapping {
    pub eid: Eid,
    /// Whether the mapping is one of the settings, and has no end.
    pub fixed: bool,
    /// The moment at which the mapping's TTL is over, in nanoseconds; 0 where it is fixed.
    pub end: u128,
    /// The record that the mapping was learned from.
    pub details: Record,
    /// Bit i: whether a status bit of locator i was received since the mapping was learned.
    pub known: u32,
    /// Bit i: the last status bit of locator i, 0 where none was received.
    pub bits: u32,
}
