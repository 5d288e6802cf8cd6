// The one value for malformed octets.

/// The layer whose rule failed.
#[derive(Clone, Copy, Debug, PartialEq, Eq)]
pub enum Layer {
    /// Ethernet and its VLAN tag.
    Link,
    /// IPv4 (RFC 791) and IPv6 (RFC 8200).
    Ip,
    /// UDP (RFC 768).
    Udp,
    /// The LISP data header (RFC 9300).
    Lisp,
    /// The LISP control messages (RFC 9301).
    Message,
}

/// Which rule failed.
#[derive(Clone, Copy, Debug, PartialEq, Eq)]
pub enum Why {
    /// Fewer octets are there than the layout of the layer needs from the place on.
    Short,
    /// The type of an Ethernet frame, behind one VLAN tag or none, is neither IPv4 nor IPv6 (IEEE
    /// 802.3, 802.1Q).
    EtherType,
    /// The version of an IP packet is neither 4 (RFC 791, section 3.1) nor 6 (RFC 8200, section 3).
    Version,
    /// The header of an IPv4 packet has fewer than 20 octets (RFC 791, section 3.1).
    HeaderLength,
    /// An IP packet names a length past the octets (RFC 791, section 3.1; RFC 8200, section 3), or, in
    /// IPv4, one below that of its header.
    TotalLength,
    /// The checksum of an IPv4 header is wrong (RFC 791, section 3.1).
    Checksum,
    /// The length of a datagram is below 8 octets, or past its packet's end (RFC 768).
    UdpLength,
    /// The checksum of a datagram is wrong, or is 0 where it must be there (RFC 768; RFC 9301, section 5).
    UdpChecksum,
    /// The address family isn't one that may stand at the place (RFC 9301, section 5; RFC 8060, section
    /// 4.1).
    Afi,
    /// A mask length is greater than its EID's address has bits (RFC 9301, sections 5.2 and 5.4).
    MaskLength,
    /// An LCAF has another type than 2, which holds an instance (RFC 8060, section 4.1).
    LcafType,
    /// The length of an LCAF isn't that of its instance and address (RFC 8060, section 4.1).
    LcafLength,
    /// An instance doesn't fit the 24 bits of a LISP header (RFC 8060, section 4.1).
    InstanceTooLarge,
    /// The message's type isn't one that is read where it stands (RFC 9301, section 5.1).
    MessageType,
    /// The S bit is set: authentication follows, which isn't read (RFC 9301, sections 5.4 and 5.8).
    Authenticated,
    /// The packet in an encapsulated message has no whole datagram (RFC 9301, section 5.8).
    InnerProtocol,
    /// The datagram in an encapsulated message goes to another port than 4342 (RFC 9301, section 5.8).
    InnerPort,
}

/// Malformed octets, by the first rule that fails. The place counts octets from the start of the
/// frame, or of the octets that the reader was given.
#[derive(Clone, Copy, Debug, PartialEq, Eq)]
pub struct Refused {
    pub layer: Layer,
    pub place: u32,
    pub why: Why,
}
