// The identifiers of endpoints.
ghost use Rattle.std.specs.Prelude.{◌<◌, ◌^◌};

use ip_headers::Prefix;

/// An EID prefix of an instance (RFC 9301; RFC 8060, section 4.1). Ordered by instance, then prefix.
#[derive(Clone, Copy, Debug, PartialEq, Eq, PartialOrd, Ord)]
pub struct Eid {
    /// The Instance ID, below 2^24.
    pub iid: u32,
    pub prefix: Prefix,
    ghost in_range: { iid < 2 ^ 24 },
}
