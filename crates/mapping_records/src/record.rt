// Mapping records, as values.
use crate::Eid;
use ip_headers::Addr;
use octets::Items;

/// One locator of a mapping (RFC 9301, section 5.4).
#[derive(Clone, Copy, Debug, PartialEq, Eq)]
pub struct Locator {
    pub addr: Addr,
    /// The locators of the lowest priority are taken first; 255 means never.
    pub priority: u8,
    /// The share of the flows among locators of one priority.
    pub weight: u8,
    /// The priority for multicast.
    pub m_priority: u8,
    /// The weight for multicast.
    pub m_weight: u8,
    /// L: the locator belongs to the sender of the record.
    pub local: bool,
    /// p: the locator is the one that was probed.
    pub probed: bool,
    /// R: the locator is up, as the sender of the record sees it.
    pub reachable: bool,
}

/// A list of locators.
pub type Locators = Items<Locator>;

/// A mapping of an EID prefix to locators (RFC 9301, section 5.4).
#[derive(Debug, Drop)]
pub struct Record {
    /// The TTL in minutes; 2^32 - 1 leaves it to the receiver.
    pub ttl: u32,
    /// The action on packets where there are no locators, at most 7.
    pub action: u8,
    /// A: the record comes from the site that owns the EID.
    pub authoritative: bool,
    /// The Map-Version, at most 4,095; 0 where there is none.
    pub version: u16,
    pub eid: Eid,
    pub locators: Locators,
}
