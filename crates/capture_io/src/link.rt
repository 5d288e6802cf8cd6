/// The link type of a frame: what its octets begin with.
#[derive(Clone, Copy, Debug, PartialEq, Eq)]
pub enum Link {
    /// An Ethernet header, with a VLAN tag or without (link type 1).
    Ethernet,
    /// The IP packet itself (link type 101).
    Raw,
}
