// The five numbers of a flow.
use crate::Addr;

/// Addresses, protocol and ports of a packet. The ports are 0 unless TCP or UDP follows the IP
/// header directly, the packet is no fragment and both ports are there.
#[derive(Clone, Copy, Debug, PartialEq, Eq)]
pub struct FiveTuple {
    pub source: Addr,
    pub dest: Addr,
    pub protocol: u8,
    pub source_port: u16,
    pub dest_port: u16,
}
