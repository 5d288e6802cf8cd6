// The rules of an IP packet, and the fields of its header.
ghost use Rattle.std.specs.Prelude.{◌≡◌, ◌≤◌, ◌<◌, ◌+◌, ◌^◌, length};
ghost use Rattle.octets.specs.Rules.{first_failing};
ghost use Rattle.ip_headers.specs.Ip.{ip_rules, v4_at, v6_at, version};

use crate::sums::ones_sum;
use crate::{Layer, Refused, V4Header, V6Header, Why};
use octets::{big_16, big_32, big_128};

/// The first rule of an IP packet that fails.
pub(crate) fn first_refusal(octets: &[u8], base: u32) -> Option<Refused>
    requires { base + length octets.now < 2 ^ 32 }
    ensures { result ≡ first_failing (ip_rules base octets.now) }
{
    let Some(first) = octets.first() else {
        return Some(refused(base, Why::Short));
    };
    match first / 16 {
        4 => v4_refusal(octets, base),
        6 => v6_refusal(octets, base),
        _ => Some(refused(base, Why::Version)),
    }
}

fn refused(place: u32, why: Why) -> Refused
    ensures { result ≡ record { layer = Layer.Ip; place = place; why = why } }
{
    Refused {
        layer: Layer::Ip,
        place,
        why,
    }
}

fn v4_refusal(octets: &[u8], base: u32) -> Option<Refused>
    requires room { base + length octets.now < 2 ^ 32 }
    requires some { 1 ≤ length octets.now }
    requires version { version octets.now ≡ 4 }
    ensures { result ≡ first_failing (ip_rules base octets.now) }
{
    if octets.len() < 20 {
        return Some(refused(base, Why::Short));
    }
    let header_len = usize::from(octets[0] % 16 * 4);
    if header_len < 20 {
        return Some(refused(base, Why::HeaderLength));
    }
    if header_len > octets.len() {
        return Some(refused(base + 20, Why::Short));
    }
    let total = usize::from(big_16(octets, 2));
    if total < header_len || total > octets.len() {
        return Some(refused(base + 2, Why::TotalLength));
    }
    if ones_sum(&octets[..header_len]) != 0xffff {
        return Some(refused(base + 10, Why::Checksum));
    }
    None
}

fn v6_refusal(octets: &[u8], base: u32) -> Option<Refused>
    requires room { base + length octets.now < 2 ^ 32 }
    requires some { 1 ≤ length octets.now }
    requires version { version octets.now ≡ 6 }
    ensures { result ≡ first_failing (ip_rules base octets.now) }
{
    if octets.len() < 40 {
        return Some(refused(base, Why::Short));
    }
    if usize::from(big_16(octets, 4)) + 40 > octets.len() {
        return Some(refused(base + 4, Why::TotalLength));
    }
    None
}

pub(crate) fn v4_at(octets: &[u8]) -> V4Header
    requires { 20 ≤ length octets.now }
    ensures { result ≡ v4_at octets.now }
{
    let flags = big_16(octets, 6);
    V4Header {
        source: big_32(octets, 12),
        dest: big_32(octets, 16),
        tos: octets[1],
        total: big_16(octets, 2),
        id: big_16(octets, 4),
        dont_fragment: flags / 16384 % 2 == 1,
        more: flags / 8192 % 2 == 1,
        offset: flags % 8192,
        ttl: octets[8],
        protocol: octets[9],
        header_len: octets[0] % 16 * 4,
    }
}

pub(crate) fn v6_at(octets: &[u8]) -> V6Header
    requires { 40 ≤ length octets.now }
    ensures { result ≡ v6_at octets.now }
{
    V6Header {
        source: big_128(octets, 8),
        dest: big_128(octets, 24),
        class: (big_16(octets, 0) / 16 % 256) as u8,
        flow: big_32(octets, 0) % 1048576,
        payload: big_16(octets, 4),
        next: octets[6],
        hops: octets[7],
    }
}
