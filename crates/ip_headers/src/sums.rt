// The Internet checksum.
ghost use Rattle.std.specs.Prelude.{◌≡◌, ◌≤◌, fold, length};
ghost use Rattle.ip_headers.specs.Udp.{addr_octets, pseudo_header};
ghost use Rattle.ip_headers.specs.Checksum.{checksum, folded, ones_add, ones_sum, plain_sum, words};

use crate::{Addr, UDP};

/// The most octets that are summed before carries are added in.
const BLOCK: usize = 65_536;

/// The checksum of RFC 1071, an odd last octet padded with zero.
pub fn checksum(octets: &[u8]) -> u16
    ensures { result ≡ checksum octets.now }
{
    0xffff - ones_sum(octets)
}

/// The ones' complement sum of octets.
pub(crate) fn ones_sum(octets: &[u8]) -> u16
    ensures { result ≡ ones_sum octets.now }
{
    sum_from(0, octets)
}

/// The ones' complement sum of octets, added to an earlier one.
pub(crate) fn sum_from(start: u16, octets: &[u8]) -> u16
    ensures { result ≡ fold ones_add start (words octets.now) }
{
    let mut sum = start;
    let mut rest = octets;
    while rest.len() > BLOCK {
        let (block, after) = rest.split_at(BLOCK);
        sum = sum_block(sum, block);
        rest = after;
    }
    sum_block(sum, rest)
}

fn sum_block(start: u16, octets: &[u8]) -> u16
    requires { length octets.now ≤ 65536 }
    ensures { result ≡ fold ones_add start (words octets.now) }
{
    folded(wide_sum(start, octets))
}

/// A sum of octets that folds as the plain sum does: two words are added as one number, because
/// 65,536 folds to 1.
fn wide_sum(start: u16, octets: &[u8]) -> u64
    requires { length octets.now ≤ 65536 }
    ensures { folded result ≡ folded (plain_sum start octets.now) }
{
    let mut sum = u64::from(start);
    let mut rest = octets;
    while let [a, b, c, d, after @ ..] = rest {
        sum += u64::from(u32::from_be_bytes([*a, *b, *c, *d]));
        rest = after;
    }
    if let [high, low, after @ ..] = rest {
        sum += u64::from(*high) * 256 + u64::from(*low);
        rest = after;
    }
    if let [last] = rest {
        sum += u64::from(*last) * 256;
    }
    sum
}

/// A plain sum with its carries added in.
fn folded(sum: u64) -> u16
    ensures { result ≡ folded sum }
{
    if sum > 0 {
        ((sum - 1) % 0xffff + 1) as u16
    } else {
        0
    }
}

/// The sum of a UDP pseudo-header: the addresses, the protocol and the length.
pub(crate) fn pseudo_sum(from: Addr, to: Addr, length: u16) -> u16
    ensures { result ≡ ones_sum (pseudo_header from to length) }
{
    let addresses = addr_sum(addr_sum(0, from), to);
    ones_add(ones_add(addresses, u16::from(UDP)), length)
}

fn addr_sum(start: u16, addr: Addr) -> u16
    ensures { result ≡ fold ones_add start (words (addr_octets addr)) }
{
    match addr {
        Addr::V4(n) => sum_from(start, &n.to_be_bytes()),
        Addr::V6(n) => sum_from(start, &n.to_be_bytes()),
    }
}

pub(crate) fn ones_add(a: u16, b: u16) -> u16
    ensures { result ≡ ones_add a b }
{
    let sum = u32::from(a) + u32::from(b);
    if sum > 0xffff {
        (sum - 0xffff) as u16
    } else {
        sum as u16
    }
}
