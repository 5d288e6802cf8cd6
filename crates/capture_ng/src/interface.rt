// An interface of a section.
use capture_io::Link;

/// Whole seconds that are added to each Timestamp of an interface, or taken from it (if_tsoffset).
#[derive(Clone, Copy, Debug, PartialEq, Eq)]
pub enum Added {
    Later(u64),
    Earlier(u64),
}

/// The clock of an interface: how its Timestamps are read.
#[derive(Clone, Copy, Debug, PartialEq, Eq)]
pub struct Clock {
    /// How many units of Timestamps make a second (if_tsresol).
    pub units: u64,
    pub added: Added,
}

/// An interface of a section: its link type, its SnapLen and its clock.
#[derive(Clone, Copy, Debug, PartialEq, Eq)]
pub struct Interface {
    /// The link type of the interface's frames; None for one that isn't read.
    pub link: Option<Link>,
    /// SnapLen: how many octets of a simple packet are kept at most; 0 for all.
    pub snap: u32,
    pub clock: Clock,
}
