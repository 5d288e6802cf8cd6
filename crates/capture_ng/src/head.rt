// The head of a block.
use capture_io::Order;

/// The kinds of blocks that a reader distinguishes, by their Block Type.
#[derive(Clone, Copy, Debug, PartialEq, Eq)]
pub enum Kind {
    /// A section header block (0x0a0d0d0a).
    SectionHeader,
    /// An interface description block: an interface of the section (1).
    InterfaceDescription,
    /// An obsolete packet block (2), which is refused.
    ObsoletePacket,
    /// A simple packet block: a packet without a time, of the section's first interface (3).
    SimplePacket,
    /// An enhanced packet block: a packet with its interface and its time (6).
    EnhancedPacket,
    /// Any other block, which is passed over.
    Other,
}

/// The head of a block: its kind, the byte order of its numbers, and its total length in octets.
#[derive(Clone, Copy, Debug, PartialEq, Eq)]
pub struct Head {
    pub kind: Kind,
    pub order: Order,
    pub length: u32,
}
