//! IPv4, IPv6 and UDP headers (RFC 791, 8200, 768): read by rules in order, and written exactly.
#![tactic(auto)]

mod addr;
mod flow;
mod header;
mod laws;
mod packet;
mod prefix;
mod reading;
mod rules;
mod sums;
mod tuple;
mod udp;
mod udp_writing;
mod writing;

pub use addr::{Addr, is_below, same_address};
pub use flow::five_tuple;
pub use header::{IpHeader, UDP, UdpHeader, V4Header, V6Header};
pub use laws::{
    canonical_udp_spells, canonical_v4_spells, canonical_v6_spells, one_header_is_spelled,
    one_udp_header_is_spelled, written_udp_is_read_again, written_v4_is_read_again,
    written_v6_is_read_again,
};
pub use octets::{Items, Layer, NoMemory, Octets, Refused, Why};
pub use packet::IpPacket;
pub use prefix::Prefix;
pub use reading::read_ip;
pub use sums::checksum;
pub use tuple::FiveTuple;
pub use udp::{check_udp, read_udp, udp_payload};
pub use udp_writing::write_udp;
pub use writing::{canonical_v4, canonical_v6, write_v4, write_v6};
