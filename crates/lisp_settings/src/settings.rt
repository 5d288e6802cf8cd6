// The settings of a router as a value.
use ip_headers::Addr;
use mapping_records::{Eid, Record};
use octets::Items;

/// Nonces, in the order in which they are used.
pub type Nonces = Items<u64>;

/// Own locators of the router, in ascending order of address.
pub type OwnLocators = Items<OwnLocator>;

/// Attachments of VLANs to instances, in ascending order of VLAN.
pub type Attachments = Items<Attachment>;

/// EID prefixes of the site, in ascending order of EID.
pub type Databases = Items<Database>;

/// Mappings, in ascending order of EID.
pub type Records = Items<Record>;

/// Changes of own locators, in ascending order of second, then address.
pub type Changes = Items<Change>;

/// Limits of instances, in ascending order of instance.
pub type LimitItems = Items<LimitItem>;

/// One of the router's own locators (RFC 9301, section 5.4).
#[derive(Clone, Copy, Debug, PartialEq, Eq)]
pub struct OwnLocator {
    pub addr: Addr,
    /// The priority in Map-Replies: the lowest is preferred, and 255 marks a locator that mustn't
    /// be used.
    pub priority: u8,
    /// The weight in Map-Replies: the share of the flows among locators of one priority.
    pub weight: u8,
    pub up: bool,
}

/// An attachment: the instance of the frames of a VLAN.
#[derive(Clone, Copy, Debug, PartialEq, Eq)]
pub struct Attachment {
    /// The VLAN, at most 4,095; 0 stands for frames without a tag.
    pub vlan: u16,
    /// The Instance ID, below 2^24.
    pub iid: u32,
}

/// An EID prefix of the site, and its Map-Version.
#[derive(Clone, Copy, Debug, PartialEq, Eq)]
pub struct Database {
    pub eid: Eid,
    /// The Map-Version (RFC 9302), at most 4,095; 0 where there is none.
    pub version: u16,
}

/// A change of an own locator: from a second on it is up or down.
#[derive(Clone, Copy, Debug, PartialEq, Eq)]
pub struct Change {
    /// The second since 1970 from which the locator is up or down.
    pub at: u32,
    /// The address of the own locator.
    pub address: Addr,
    pub up: bool,
}

/// The limit of an instance: how many mappings it may learn, and how many requests it may have
/// open.
#[derive(Clone, Copy, Debug, PartialEq, Eq)]
pub struct LimitItem {
    /// The Instance ID, below 2^24.
    pub iid: u32,
    /// The learned mappings that the instance may have at once, at most 65,536.
    pub mappings: u32,
    /// The requests for EIDs of the instance that may be open at once, at most 1,024.
    pub requests: u32,
}

/// The settings of a router.
#[derive(Debug, Drop)]
pub struct Settings {
    /// The key of the ChaCha8 stream that gives the nonces past the listed ones.
    pub seed: [u8; 32],
    /// The nonces that are used first; no text lists more than 4,096.
    pub nonces: Nonces,
    /// The Map-Resolver that Map-Requests go to, if there is one; an own locator of its family is
    /// up.
    pub resolver: Option<Addr>,
    /// The TTL of the router's own mappings, in minutes.
    pub ttl: u32,
    /// Whether locators are probed.
    pub probe: bool,
    /// Whether echoes of nonces are requested of locators.
    pub echo: bool,
    /// The own locators: 1 to 32.
    pub locators: OwnLocators,
    /// The attachments of VLANs to instances: at most 4,096.
    pub attachments: Attachments,
    /// The EID prefixes of the site: at most 64.
    pub databases: Databases,
    /// The static mappings: at most 65,536.
    pub mappings: Records,
    /// The changes of own locators: at most 256.
    pub changes: Changes,
    /// The stated limits, of attached instances: at most 4,096.
    pub limits: LimitItems,
}
