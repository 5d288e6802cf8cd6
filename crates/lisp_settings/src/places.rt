// The keys of faults in items of lists, as paths from the table that has the list.
ghost use Rattle.std.specs.Prelude.{◌≡◌, IfOk};
ghost use Rattle.lisp_settings.specs.Places.{fault_within, inner_key, item_key};

use crate::fault::{Key, SettingsFault};
use octets::{NoMemory, Octets};
use std::alloc::Global;

/// The path to an item of a list, as `database.2`.
pub fn item_key(alloc: Global, list: &str, position: usize) -> Result<Key, NoMemory>
    ensures { IfOk result (λ key. key ≡ item_key list.now position) }
{
    let text = format!(in alloc; "{list}.{position}")?;
    Key::copied(alloc, text.as_str())
}

/// The path to a key of an item of a list, as `mapping.3.iid`.
fn inner_key(alloc: Global, list: &str, position: usize, key: &Key) -> Result<Key, NoMemory>
    ensures { IfOk result (λ inner. inner ≡ inner_key list.now position key.now) }
{
    let item = item_key(alloc, list, position)?;
    let mut text = Octets::copied(alloc, item.as_slice())?;
    text.append_both(b".", key.as_slice())?;
    Ok(Key::new(text))
}

/// The fault of an item, with its path from the table that has the list.
pub fn within(
    alloc: Global,
    list: &str,
    position: usize,
    inner: SettingsFault,
) -> Result<SettingsFault, NoMemory>
    ensures { IfOk result (λ outer. outer ≡ fault_within list.now position inner) }
{
    Ok(match inner {
        SettingsFault::UnknownKey(key) => SettingsFault::UnknownKey(inner_key(
            alloc, list, position, &key,
        )?),
        SettingsFault::Missing(key) => SettingsFault::Missing(inner_key(
            alloc, list, position, &key,
        )?),
        SettingsFault::BadValue(key) => SettingsFault::BadValue(inner_key(
            alloc, list, position, &key,
        )?),
        SettingsFault::Duplicate(key) => SettingsFault::Duplicate(inner_key(
            alloc, list, position, &key,
        )?),
        SettingsFault::TooMany(key) => SettingsFault::TooMany(inner_key(
            alloc, list, position, &key,
        )?),
        SettingsFault::NotToml => SettingsFault::NotToml,
        SettingsFault::TooLong => SettingsFault::TooLong,
        SettingsFault::Memory => SettingsFault::Memory,
    })
}
