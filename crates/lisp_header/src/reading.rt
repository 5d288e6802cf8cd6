// Reading of the LISP data header.
ghost use Rattle.std.specs.Prelude.{◌≡◌, ◌+◌, ◌<◌, ◌≤◌, ◌^◌, length, IfOk};
ghost use Rattle.octets.specs.Numbers.{big};
ghost use Rattle.octets.specs.Refusals.{refusal_of};
ghost use Rattle.octets.specs.Rules.{first_failing};
ghost use Rattle.lisp_header.specs.Header.{header_at, instance_at, lisp_rules, nonce_at, status_at, versions_at, InRange};

use crate::LispHeader;
use crate::flags::{ECHO, INSTANCE, NONCE, STATUS, VERSIONS, flag_at};
use byteorder::{BigEndian, ByteOrder};
use octets::{Layer, Refused, Why, big_32};

/// The header in the first eight octets. The places of refusals count from `base`.
pub fn read_header(octets: &[u8], base: u32) -> Result<LispHeader, Refused>
    requires { base + length octets.now < 2 ^ 32 }
    ensures refused { refusal_of result ≡ first_failing (lisp_rules base octets.now) }
    ensures value { IfOk result (λ header. header ≡ header_at octets.now) }
    ensures range { IfOk result (λ header. InRange header) }
{
    if octets.len() < 8 {
        return Err(Refused {
            layer: Layer::Lisp,
            place: base,
            why: Why::Short,
        });
    }
    Ok(header_at(octets))
}

fn header_at(octets: &[u8]) -> LispHeader
    requires { 8 ≤ length octets.now }
    ensures { result ≡ header_at octets.now }
{
    LispHeader {
        nonce: nonce_at(octets),
        echo: flag_at(octets, NONCE) && flag_at(octets, ECHO),
        versions: versions_at(octets),
        status: status_at(octets),
        instance: instance_at(octets),
        key: octets[0] % 4,
    }
}

fn nonce_at(octets: &[u8]) -> Option<u32>
    requires { 8 ≤ length octets.now }
    ensures { result ≡ nonce_at octets.now }
{
    if flag_at(octets, NONCE) {
        Some(big_24(octets, 1))
    } else {
        None
    }
}

fn versions_at(octets: &[u8]) -> Option<(u16, u16)>
    requires { 8 ≤ length octets.now }
    ensures { result ≡ versions_at octets.now }
{
    if flag_at(octets, NONCE) || !flag_at(octets, VERSIONS) {
        return None;
    }
    let both = big_24(octets, 1);
    Some(((both / 4096) as u16, (both % 4096) as u16))
}

fn status_at(octets: &[u8]) -> Option<u32>
    requires { 8 ≤ length octets.now }
    ensures { result ≡ status_at octets.now }
{
    if !flag_at(octets, STATUS) {
        return None;
    }
    if flag_at(octets, INSTANCE) {
        Some(u32::from(octets[7]))
    } else {
        Some(big_32(octets, 4))
    }
}

fn instance_at(octets: &[u8]) -> Option<u32>
    requires { 8 ≤ length octets.now }
    ensures { result ≡ instance_at octets.now }
{
    if flag_at(octets, INSTANCE) {
        Some(big_24(octets, 4))
    } else {
        None
    }
}

// The 24 bit number at a place, its highest octet first.
fn big_24(octets: &[u8], at: usize) -> u32
    requires { at + 3 ≤ length octets.now }
    ensures value { result ≡ big 3 octets.now at }
    ensures range { result < 2 ^ 24 }
{
    BigEndian::read_u24(&octets[at..])
}
