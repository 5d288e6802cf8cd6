// The fields of IP headers.
ghost use Rattle.std.specs.Prelude.{◌≡◌};

use crate::Addr;

/// The protocol number of UDP.
pub const UDP: u8 = 17;

/// An IPv4 header (RFC 791). Reserved flag, checksum and options are left out.
#[derive(Clone, Copy, Debug, PartialEq, Eq)]
pub struct V4Header {
    pub source: u32,
    pub dest: u32,
    /// DSCP and ECN.
    pub tos: u8,
    /// The octets of the packet, the header among them.
    pub total: u16,
    pub id: u16,
    pub dont_fragment: bool,
    pub more: bool,
    /// The fragment offset, in units of eight octets, below 2^13.
    pub offset: u16,
    pub ttl: u8,
    pub protocol: u8,
    /// The length of the header in octets, options among them.
    pub header_len: u8,
}

/// An IPv6 header (RFC 8200).
#[derive(Clone, Copy, Debug, PartialEq, Eq)]
pub struct V6Header {
    pub source: u128,
    pub dest: u128,
    /// DSCP and ECN.
    pub class: u8,
    /// The flow label, below 2^20.
    pub flow: u32,
    /// How many octets follow the header.
    pub payload: u16,
    pub next: u8,
    pub hops: u8,
}

/// The header of a packet of either version.
#[derive(Clone, Copy, Debug, PartialEq, Eq)]
pub enum IpHeader {
    V4(V4Header),
    V6(V6Header),
}

impl IpHeader {
    ghost use Rattle.ip_headers.specs.Ip.{class_of, dest_of, is_fragment, protocol_of, source_of, ttl_of};

    /// The source address.
    pub fn source(&self) -> Addr
        ensures { result ≡ source_of self.now }
    {
        match self {
            IpHeader::V4(header) => Addr::V4(header.source),
            IpHeader::V6(header) => Addr::V6(header.source),
        }
    }

    /// The destination address.
    pub fn dest(&self) -> Addr
        ensures { result ≡ dest_of self.now }
    {
        match self {
            IpHeader::V4(header) => Addr::V4(header.dest),
            IpHeader::V6(header) => Addr::V6(header.dest),
        }
    }

    /// DSCP and ECN.
    pub fn class(&self) -> u8
        ensures { result ≡ class_of self.now }
    {
        match self {
            IpHeader::V4(header) => header.tos,
            IpHeader::V6(header) => header.class,
        }
    }

    /// The Time to Live, or the Hop Limit.
    pub fn ttl(&self) -> u8
        ensures { result ≡ ttl_of self.now }
    {
        match self {
            IpHeader::V4(header) => header.ttl,
            IpHeader::V6(header) => header.hops,
        }
    }

    /// The Protocol, or the Next Header.
    pub fn protocol(&self) -> u8
        ensures { result ≡ protocol_of self.now }
    {
        match self {
            IpHeader::V4(header) => header.protocol,
            IpHeader::V6(header) => header.next,
        }
    }

    /// Whether the packet is a part of another: an IPv4 packet with more fragments set, or with an
    /// offset (RFC 791, section 3.1).
    pub fn is_fragment(&self) -> bool
        ensures { result ≡ is_fragment self.now }
    {
        match self {
            IpHeader::V4(header) => header.more || header.offset != 0,
            IpHeader::V6(_) => false,
        }
    }
}

/// A UDP header (RFC 768), and where it stands.
#[derive(Clone, Copy, Debug, PartialEq, Eq)]
pub struct UdpHeader {
    pub source: u16,
    pub dest: u16,
    /// How many octets the header and its payload have.
    pub length: u16,
    pub checksum: u16,
    /// The place of the header in its packet.
    pub at: u32,
}
