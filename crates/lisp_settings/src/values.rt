// The values in a settings file.
ghost use Rattle.std.specs.Prelude.{◌≡◌, ◌≤◌, IfSome, option_map};
ghost use Rattle.toml.specs.Data.{as_array};
ghost use Rattle.toml.specs.View.{view, items_view};
ghost use Rattle.lisp_settings.specs.Hex.{hex_number};
ghost use Rattle.lisp_settings.specs.Values.{address, are_tables, in_range, nonce, number, prefix, seed, tables};

use crate::addresses::{read_address, read_prefix};
use crate::hex::hex_octets;
use ip_headers::{Addr, Prefix};
use toml::Value;

/// The whole number in a value, if it is one from `least` to `greatest`.
pub fn number(value: &Value, least: u32, greatest: u32) -> Option<u32>
    ensures { result ≡ number least greatest (view value.now) }
{
    in_range(value.as_integer()?, least, greatest)
}

fn in_range(number: i64, least: u32, greatest: u32) -> Option<u32>
    ensures { result ≡ in_range least greatest number }
{
    if i64::from(least) <= number && number <= i64::from(greatest) {
        Some(number as u32)
    } else {
        None
    }
}

/// The address in a text value, or None.
pub fn address(value: &Value) -> Option<Addr>
    ensures { result ≡ address (view value.now) }
{
    read_address(value.as_str()?)
}

/// The prefix in a text value, or None.
pub fn prefix(value: &Value) -> Option<Prefix>
    ensures { result ≡ prefix (view value.now) }
{
    read_prefix(value.as_str()?)
}

/// The seed in a text value of 64 hexadecimal digits, or None.
pub fn seed(value: &Value) -> Option<[u8; 32]>
    ensures { result ≡ seed (view value.now) }
{
    hex_octets(value.as_str()?.as_bytes())
}

/// The nonce in a text value of 16 hexadecimal digits, or None.
pub fn nonce(value: &Value) -> Option<u64>
    ensures { result ≡ nonce (view value.now) }
{
    hex_number(value.as_str()?.as_bytes())
}

fn hex_number(text: &[u8]) -> Option<u64>
    ensures { result ≡ hex_number text.now }
{
    let octets: [u8; 8] = hex_octets(text)?;
    Some(u64::from_be_bytes(octets))
}

/// The items of an array whose items are all tables, or None.
pub fn tables(value: &Value) -> Option<&[Value]>
    ensures { option_map (λ items. items_view items.now) result ≡ tables (view value.now) }
{
    let items = array(value)?;
    if are_tables(items) { Some(items) } else { None }
}

/// The items of an array, or None for any other value.
pub fn array(value: &Value) -> Option<&[Value]>
    ensures { option_map (λ items. items_view items.now) result ≡ as_array (view value.now) }
{
    Some(value.as_array()?.as_slice())
}

fn are_tables(items: &[Value]) -> bool
    ensures { result ≡ are_tables (items_view items.now) }
{
    for item in items {
        if !item.is_table() {
            return false;
        }
    }
    true
}
