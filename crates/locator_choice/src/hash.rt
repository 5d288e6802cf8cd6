// The hash of octets, the hash of a flow, and the source port by a hash.
ghost use Rattle.std.specs.Prelude.{◌≡◌, fold};
ghost use Rattle.ip_headers.specs.Udp.{addr_octets};
ghost use Rattle.locator_choice.specs.Hash.{flow_hash, hashed, octets_hash, source_port};

use crate::limits::FIRST_PORT;
use ip_headers::{Addr, FiveTuple};

// The value of the hash before the first octet.
const BASIS: u32 = 0x811c_9dc5;

/// The FNV-1a hash of 32 bits over octets.
pub fn octets_hash(octets: &[u8]) -> u32
    ensures { result ≡ octets_hash octets.now }
{
    hash_octets(BASIS, octets)
}

/// The FNV-1a hash of 32 bits over source and destination address, protocol, and both ports.
pub fn flow_hash(tuple: &FiveTuple) -> u32
    ensures { result ≡ flow_hash tuple.now }
{
    let hash = hash_address(BASIS, tuple.source);
    let hash = hash_address(hash, tuple.dest);
    let hash = hash_octets(hash, &[tuple.protocol]);
    let hash = hash_octets(hash, &tuple.source_port.to_be_bytes());
    hash_octets(hash, &tuple.dest_port.to_be_bytes())
}

/// The source port of a tunnel packet whose flow has that hash.
pub fn source_port(hash: u32) -> u16
    ensures { result ≡ source_port hash }
{
    FIRST_PORT + (hash % (0x1_0000 - u32::from(FIRST_PORT))) as u16
}

fn hash_address(hash: u32, address: Addr) -> u32
    ensures { result ≡ fold hashed hash (addr_octets address) }
{
    match address {
        Addr::V4(number) => hash_octets(hash, &number.to_be_bytes()),
        Addr::V6(number) => hash_octets(hash, &number.to_be_bytes()),
    }
}

fn hash_octets(hash: u32, octets: &[u8]) -> u32
    ensures { result ≡ fold hashed hash octets.now }
{
    let mut hash = hash;
    for octet in octets {
        hash = (hash ^ u32::from(*octet)).wrapping_mul(0x0100_0193);
    }
    hash
}
