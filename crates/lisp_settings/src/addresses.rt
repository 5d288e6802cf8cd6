// Addresses and prefixes of a settings file: read from text, and written as text.
ghost use Rattle.std.specs.Prelude.{◌≡◌, ◌<◌, ◌⊎◌, ◌↔◌, false, IsTrue, IfOk, Some, length, slice_index, string_bytes};
ghost use Rattle.std.specs.List.{list_any};
ghost use Rattle.ip_headers.specs.declared.addr.Addr.TheVariants.{V4, V6};
ghost use Rattle.lisp_settings.specs.AddressText.{ipv4_address, ipv6_address, is_slash, address_of, length_of, prefix_of};

use ip_headers::{Addr, Prefix};
use octets::NoMemory;
use std::alloc::Global;
use std::net::{Ipv4Addr, Ipv6Addr};

/// The address that a text spells, or None. A text with dots can only be an IPv4 address.
pub fn read_address(text: &str) -> Option<Addr>
    ensures { result ≡ address_of text.now }
{
    if text.as_bytes().contains(&b'.') {
        read_ipv4(text)
    } else {
        read_ipv6(text)
    }
}

fn read_ipv4(text: &str) -> Option<Addr>
    ensures { result ≡ ipv4_address text.now }
{
    match text.parse::<Ipv4Addr>() {
        Ok(address) => Some(Addr::V4(address.to_bits())),
        Err(_) => None,
    }
}

fn read_ipv6(text: &str) -> Option<Addr>
    ensures { result ≡ ipv6_address text.now }
{
    match text.parse::<Ipv6Addr>() {
        Ok(address) => Some(Addr::V6(address.to_bits())),
        Err(_) => None,
    }
}

/// The prefix that a text spells, or None: an address, `/` and a length. Bits past the length are
/// cleared.
pub fn read_prefix(text: &str) -> Option<Prefix>
    ensures { result ≡ prefix_of text.now }
{
    let (address, length) = text.split_once('/')?;
    Prefix::new(read_address(address)?, read_length(length)?)
}

/// The prefix length that digits spell: a decimal number below 256 without leading zeros. None for
/// other digits.
fn read_length(digits: &str) -> Option<u8>
    ensures { result ≡ length_of digits.now }
{
    if is_padded(digits.as_bytes()) {
        return None;
    }
    match digits.parse() {
        Ok(length) => Some(length),
        Err(_) => None,
    }
}

/// Whether a `0` or `+` stands before further octets: `parse` accepts such a number, a settings
/// file may not have it.
fn is_padded(octets: &[u8]) -> bool
    ensures { IsTrue result
        ↔ (1 < length octets.now)
        × ((slice_index octets.now 0 ≡ 48) ⊎ (slice_index octets.now 0 ≡ 43)) }
{
    octets.len() > 1 && (octets[0] == b'0' || octets[0] == b'+')
}

/// The text of an address, which reads as that address. It has no slash.
pub fn address_text(alloc: Global, addr: Addr) -> Result<String, NoMemory>
    ensures reads { IfOk result (λ text. address_of (string_bytes text) ≡ Some addr) }
    ensures whole { IfOk result (λ text. list_any is_slash (string_bytes text) ≡ false) }
{
    match addr {
        Addr::V4(bits) => ipv4_text(alloc, bits),
        Addr::V6(bits) => ipv6_text(alloc, bits),
    }
}

fn ipv4_text(alloc: Global, bits: u32) -> Result<String, NoMemory>
    ensures reads { IfOk result (λ text. address_of (string_bytes text) ≡ Some (V4 bits)) }
    ensures whole { IfOk result (λ text. list_any is_slash (string_bytes text) ≡ false) }
{
    let address = Ipv4Addr::from_bits(bits);
    Ok(format!(in alloc; "{address}")?)
}

/// The text of an IPv6 address: groups of hexadecimal digits alone, without dots even where the
/// address embeds an IPv4 address.
fn ipv6_text(alloc: Global, bits: u128) -> Result<String, NoMemory>
    ensures reads { IfOk result (λ text. address_of (string_bytes text) ≡ Some (V6 bits)) }
    ensures whole { IfOk result (λ text. list_any is_slash (string_bytes text) ≡ false) }
{
    let groups = Ipv6Addr::from_bits(bits).hex_groups();
    Ok(format!(in alloc; "{groups}")?)
}

/// The text of a prefix, which reads as that prefix: its address, `/` and its length.
pub fn prefix_text(alloc: Global, prefix: Prefix) -> Result<String, NoMemory>
    ensures { IfOk result (λ text. prefix_of (string_bytes text) ≡ Some prefix) }
{
    let address = address_text(alloc, prefix.addr)?;
    let length = prefix.len;
    Ok(format!(in alloc; "{address}/{length}")?)
}
