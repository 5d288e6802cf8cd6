// Values at the keys of a table, each read or refused.
ghost use Rattle.std.specs.Prelude.{◌≡◌, ◌≢◌, ◌≤◌, ℕ, Bool, bytes_eq, string_bytes, map, option_map, false, IfOk, IfErr, OnOk, Result, Ok, Err};
ghost use Rattle.std.specs.List.{list_any};
ghost use Rattle.toml.specs.Data.{as_bool, get_member};
ghost use Rattle.toml.specs.View.{view, table_view};
ghost use Rattle.lisp_settings.specs.Fields.{only_keys, optional, required, taken, unknown_key, value_at};
ghost use Rattle.lisp_settings.specs.Values.{address, number, prefix};
ghost use Rattle.lisp_settings.specs.declared.fault.SettingsFault.TheVariants as fault;

use crate::fault::{Key, SettingsFault};
use crate::values;
use ip_headers::{Addr, Prefix};
use std::alloc::Global;
use toml::{Table, Value};

/// Refuses a table that has a key other than the `known` ones.
pub fn only_keys(alloc: Global, table: &Table, known: &[&str]) -> Result<(), SettingsFault>
    ensures ok { OnOk result (only_keys (map (λ key. key.now) known.now) (table_view table.now)
        ≡ Ok (table_view table.now)) }
    ensures err { IfErr result (λ e. e ≢ fault.Memory
        → only_keys (map (λ key. key.now) known.now) (table_view table.now) ≡ Err e) }
{
    match unknown_key(table, known) {
        Some(key) => Err(SettingsFault::UnknownKey(Key::copied(alloc, key)?)),
        None => Ok(()),
    }
}

fn unknown_key<'a>(table: &'a Table, known: &[&str]) -> Option<&'a str>
    ensures { option_map (λ key. key.now) result
        ≡ unknown_key (map (λ key. key.now) known.now) (table_view table.now) }
{
    Some(first_unknown(table, known)?.as_str())
}

fn first_unknown<'a>(table: &'a Table, known: &[&str]) -> Option<&'a String>
    ensures { option_map (λ key. string_bytes key.now) result
        ≡ unknown_key (map (λ key. key.now) known.now) (table_view table.now) }
{
    table.keys().find(|key| !is_among(key.as_str(), known))
}

fn is_among(key: &str, known: &[&str]) -> bool
    ensures { result ≡ list_any (λ name. bytes_eq name key.now) (map (λ name. name.now) known.now) }
{
    known.contains(&key)
}

/// The value at a required key of a table, or the fault that the key is missing.
pub fn needed<'a>(alloc: Global, table: &'a Table, key: &str) -> Result<&'a Value, SettingsFault>
    ensures ok { IfOk result (λ value.
        value_at key.now (get_member key.now (table_view table.now)) ≡ Ok (view value.now)) }
    ensures err { IfErr result (λ e. e ≢ fault.Memory
        → value_at key.now (get_member key.now (table_view table.now)) ≡ Err e) }
{
    match value_at(table, key) {
        Some(value) => Ok(value),
        None => Err(SettingsFault::Missing(Key::copied(alloc, key)?)),
    }
}

pub fn value_at<'a>(table: &'a Table, key: &str) -> Option<&'a Value>
    ensures { option_map (λ value. view value.now) result
        ≡ get_member key.now (table_view table.now) }
{
    table.get(key)
}

/// The value that was read at a key, or the fault that the key has a bad value where none was read.
pub fn taken<T: Drop>(alloc: Global, key: &str, read: Option<T>) -> Result<T, SettingsFault>
    ensures ok { IfOk result (λ value. read ≡ Some value) }
    ensures err { IfErr result (λ e. e ≢ fault.Memory → taken key.now read ≡ Err e) }
{
    match read {
        Some(value) => Ok(value),
        None => Err(SettingsFault::BadValue(Key::copied(alloc, key)?)),
    }
}

/// The address at a required key.
pub fn address_at(alloc: Global, table: &Table, key: &str) -> Result<Addr, SettingsFault>
    ensures ok { IfOk result (λ addr. required key.now address (table_view table.now) ≡ Ok addr) }
    ensures err { IfErr result (λ e. e ≢ fault.Memory
        → required key.now address (table_view table.now) ≡ Err e) }
{
    let value = needed(alloc, table, key)?;
    taken(alloc, key, values::address(value))
}

/// The prefix at a required key.
pub fn prefix_at(alloc: Global, table: &Table, key: &str) -> Result<Prefix, SettingsFault>
    ensures ok { IfOk result (λ read. required key.now prefix (table_view table.now) ≡ Ok read) }
    ensures err { IfErr result (λ e. e ≢ fault.Memory
        → required key.now prefix (table_view table.now) ≡ Err e) }
{
    let value = needed(alloc, table, key)?;
    taken(alloc, key, values::prefix(value))
}

/// The whole number at a required key, from 0 to `greatest`.
pub fn number_at(
    alloc: Global,
    table: &Table,
    key: &str,
    greatest: u32,
) -> Result<u32, SettingsFault>
    ensures ok { IfOk result (λ n.
        required key.now (number 0 greatest) (table_view table.now) ≡ Ok n) }
    ensures within { IfOk result (λ n. n ≤ greatest) }
    ensures err { IfErr result (λ e. e ≢ fault.Memory
        → required key.now (number 0 greatest) (table_view table.now) ≡ Err e) }
{
    let value = needed(alloc, table, key)?;
    taken(alloc, key, values::number(value, 0, greatest))
}

/// The whole number at a key, within `bounds`: the least and the greatest. The default without the
/// key.
pub fn number_or(
    alloc: Global,
    table: &Table,
    key: &str,
    bounds: (u32, u32),
    default: u32,
) -> Result<u32, SettingsFault>
    requires { default ≤ bounds.1 }
    ensures ok { IfOk result (λ n.
        optional key.now (number bounds.0 bounds.1) default (table_view table.now) ≡ Ok n) }
    ensures within { IfOk result (λ n. n ≤ bounds.1) }
    ensures err { IfErr result (λ e. e ≢ fault.Memory
        → optional key.now (number bounds.0 bounds.1) default (table_view table.now) ≡ Err e) }
{
    match value_at(table, key) {
        Some(value) => taken(alloc, key, values::number(value, bounds.0, bounds.1)),
        None => Ok(default),
    }
}

/// The truth value at a key, or the default without the key.
pub fn flag_or(
    alloc: Global,
    table: &Table,
    key: &str,
    default: bool,
) -> Result<bool, SettingsFault>
    ensures ok { IfOk result (λ flag.
        optional key.now as_bool default (table_view table.now) ≡ Ok flag) }
    ensures err { IfErr result (λ e. e ≢ fault.Memory
        → optional key.now as_bool default (table_view table.now) ≡ Err e) }
{
    match value_at(table, key) {
        Some(value) => taken(alloc, key, value.as_bool()),
        None => Ok(default),
    }
}

/// The truth value at a required key.
pub fn flag_at(alloc: Global, table: &Table, key: &str) -> Result<bool, SettingsFault>
    ensures ok { IfOk result (λ flag. required key.now as_bool (table_view table.now) ≡ Ok flag) }
    ensures err { IfErr result (λ e. e ≢ fault.Memory
        → required key.now as_bool (table_view table.now) ≡ Err e) }
{
    let value = needed(alloc, table, key)?;
    taken(alloc, key, value.as_bool())
}
