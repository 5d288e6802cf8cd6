// A locator that may be probed.
use ip_headers::Addr;
use mapping_records::Eid;

/// A locator that may be probed, and an EID whose mapping names it.
#[derive(Clone, Copy, Debug, PartialEq, Eq)]
pub struct Target {
    pub rloc: Addr,
    pub eid: Eid,
    /// The moment of its last probe in nanoseconds, if one counts.
    pub last: Option<u64>,
}
