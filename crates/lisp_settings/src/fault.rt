// Why a text gives no settings.
ghost use Rattle.std.specs.Prelude.{◌≡◌, ◌≢◌, ◌++◌, IfOk};
ghost use Rattle.lisp_settings.specs.declared.fault.SettingsFault.TheVariants as fault;

use octets::{NoMemory, Octets};
use std::alloc::{AllocError, AllocFailed, Global};
use std::marker::Model;

/// A key of the settings as a path: keys joined by dots, with positions in lists counted from 0, as
/// `mapping.3.locator.0.address`.
#[derive(Debug, Drop)]
pub struct Key {
    text: Octets,
}

impl Model for Key {
    ghost use Rattle.std.specs.Prelude.{List, ℕ};

    ghost Value = { List ℕ };

    ghost view = { λ key. key.text };
}

impl Key {
    /// The octets of the key's path.
    pub fn as_slice(&self) -> &[u8]
        ensures { result.now ≡ self.now }
    {
        self.text.as_slice()
    }

    pub(crate) fn copied(alloc: Global, text: &str) -> Result<Key, NoMemory>
        ensures { IfOk result (λ key. key ≡ text.now) }
    {
        Ok(Key::new(Octets::copied(alloc, text.as_bytes())?))
    }

    pub(crate) fn new(text: Octets) -> Key
        ensures { result ≡ text }
    {
        Key { text }
    }
}

/// The first fault of a text that gives no settings.
#[derive(Debug, Drop)]
pub enum SettingsFault {
    /// The text isn't UTF-8 or isn't TOML.
    NotToml,
    /// A table has a key that isn't one of its own; of several the least.
    UnknownKey(Key),
    /// A required key isn't there.
    Missing(Key),
    /// A key has a value that it doesn't take.
    BadValue(Key),
    /// An item of a list has the address, VLAN, EID, second and address, or instance of an earlier
    /// one.
    Duplicate(Key),
    /// A list has too many items. With the key `limit` also: static mappings and limits come to
    /// more mappings than a router may have, or limits to more open requests.
    TooMany(Key),
    /// The text has more than 16,777,216 octets.
    TooLong,
    /// An allocation was refused.
    Memory,
}

impl From<AllocError> for SettingsFault {
    ghost from_gives = { λ _ gives. gives ≡ fault.Memory };

    fn from(_: AllocError) -> Self {
        SettingsFault::Memory
    }
}

impl<T: Drop> From<AllocFailed<T>> for SettingsFault {
    ghost from_gives = { λ _ gives. gives ≡ fault.Memory };

    fn from(_: AllocFailed<T>) -> Self {
        SettingsFault::Memory
    }
}

impl From<NoMemory> for SettingsFault {
    ghost from_gives = { λ _ gives. gives ≡ fault.Memory };

    fn from(_: NoMemory) -> Self {
        SettingsFault::Memory
    }
}
