// Lists of tables at the keys of a table.
ghost use Rattle.std.specs.Prelude.{◌≡◌, ◌≢◌, ℕ, suc, IfOk, IfErr, OnOk, Result, Ok, Err, option_map, [], map};
ghost use Rattle.std.specs.List.{All, IsDistinct, list_any};
ghost use Rattle.std.specs.Map.{values_of};
ghost use Rattle.std.specs.Ordering.{eq_by_cmp, is_eq};
ghost use Rattle.std.specs.declared.cmp.Ordering.{Ordering};
ghost use Rattle.toml.specs.Data.{Members, as_table, get_member, no_items};
ghost use Rattle.toml.specs.View.{view, array_view, items_view, table_view};
ghost use Rattle.lisp_settings.specs.Fields.{if_ok, taken, value_or};
ghost use Rattle.lisp_settings.specs.Lists.{any_ascending, any_number, each, each_ascending, few_items, some_ascending, some_items};
ghost use Rattle.lisp_settings.specs.Places.{within};
ghost use Rattle.lisp_settings.specs.Values.{tables};
ghost use Rattle.lisp_settings.specs.Writing.{IsArrayOf, IsPlain};
ghost use Rattle.lisp_settings.specs.declared.fault.SettingsFault.{SettingsFault};
ghost use Rattle.lisp_settings.specs.declared.fault.SettingsFault.TheVariants as fault;

use crate::fault::{Key, SettingsFault};
use crate::{fields, places, values};
use octets::{Items, NoMemory};
use std::alloc::{AllocError, Global};
use std::collections::BTreeMap;
use toml::{Table, Value};

/// An item of a list in the settings: a table with a key that no other item of the list has.
pub trait Item: Drop {
    type Key: Ord + Drop;

    /// The settings read earlier by which an item is judged.
    type Known;

    ghost reads: { Self.Known → Members → Result Self SettingsFault };

    ghost key: { Self → Self.Key };

    ghost order: { Self.Key → Self.Key → Ordering };

    // The condition that an item must meet to be written.
    ghost lawful: { Self → Type 0 };

    // The condition, by the settings read earlier, that a read item meets, and under which a
    // written item is read again.
    ghost fits: { Self.Known → Self → Type 0 };

    // The most levels of arrays and tables inside an item's table.
    ghost nested: { ℕ };

    /// The item that a table spells, or the first fault.
    fn read(alloc: Global, known: &Self::Known, table: &Table) -> Result<Self, SettingsFault>
        ensures ok { IfOk result (λ item. reads known.now (table_view table.now) ≡ Ok item) }
        ensures err { IfErr result (λ e. e ≢ fault.Memory
            → reads known.now (table_view table.now) ≡ Err e) };

    /// A table that reads as the item.
    fn write(&self, alloc: Global) -> Result<Table, NoMemory>
        requires { lawful self.now }
        ensures reads { IfOk result (λ table. (known : Self.Known) → fits known self.now
            → reads known (table_view table) ≡ Ok self.now) }
        ensures plain { IfOk result (λ table. IsPlain nested (table_view table)) };

    fn key(&self) -> Self::Key
        ensures { result ≡ key self.now };

    ghost orders: { (a : Self.Key) (b : Self.Key) → Self.Key.cmp a b ≡ order a b };
}

/// The items that an array of tables spells, in the order of the file, or the first fault.
fn read_items<T: Item>(
    alloc: Global,
    known: &T::Known,
    list: &str,
    tables: &[Value],
) -> Result<Vec<T>, SettingsFault>
    ensures ok { IfOk result (λ items.
        each list.now (T.reads known.now) T.key T.order [] (items_view tables.now)
        ≡ Ok items.items) }
    ensures err { IfErr result (λ e. e ≢ fault.Memory
        → each list.now (T.reads known.now) T.key T.order [] (items_view tables.now) ≡ Err e) }
{
    let mut items = Vec::with_capacity(alloc, tables.len())?;
    for value in tables {
        let item: T = read_item(alloc, known, list, items.len(), value)?;
        if has_key(items.as_slice(), &item.key()) {
            let key = places::item_key(alloc, list, items.len())?;
            return Err(SettingsFault::Duplicate(key));
        }
        items.push(item)?;
    }
    Ok(items)
}

/// Whether an item has this key.
fn has_key<T: Item>(items: &[T], key: &T::Key) -> bool
    ensures { result ≡ list_any (λ item. is_eq (T.order (T.key item) key.now)) items.now }
{
    let [item, more @ ..] = items else {
        return false;
    };
    if is_key_of(item, key) {
        return true;
    }
    has_key(more, key)
}

fn is_key_of<T: Item>(item: &T, key: &T::Key) -> bool
    ensures { result ≡ is_eq (T.order (T.key item.now) key.now) }
{
    item.key().cmp(key).is_eq()
}

/// The items that an array of tables spells, in ascending order of their keys, or the first fault.
fn read_ascending<T: Item>(
    alloc: Global,
    known: &T::Known,
    list: &str,
    tables: &[Value],
) -> Result<Items<T>, SettingsFault>
    ensures ok { IfOk result (λ items. each_ascending list.now (T.reads known.now) T.key T.order
        (items_view tables.now) ≡ Ok items) }
    ensures err { IfErr result (λ e. e ≢ fault.Memory
        → each_ascending list.now (T.reads known.now) T.key T.order (items_view tables.now)
        ≡ Err e) }
{
    let mut sorted = BTreeMap::new(alloc);
    for value in tables {
        let item: T = read_item(alloc, known, list, sorted.len(), value)?;
        let earlier = sorted.insert(item.key(), item)?;
        if earlier.is_some() {
            let key = places::item_key(alloc, list, sorted.len())?;
            return Err(SettingsFault::Duplicate(key));
        }
    }
    let items = in_order(alloc, sorted)?;
    Ok(Items::from_vec(items))
}

fn in_order<K: Ord + Drop, T: Drop>(
    alloc: Global,
    sorted: BTreeMap<K, T>,
) -> Result<Vec<T>, AllocError>
    ensures { IfOk result (λ items. items.items ≡ values_of sorted.entries) }
{
    let items = sorted.into_values().collect(alloc)?;
    Ok(items)
}

/// The item that the table at a position of a list spells, or its fault.
fn read_item<T: Item>(
    alloc: Global,
    known: &T::Known,
    list: &str,
    position: usize,
    value: &Value,
) -> Result<T, SettingsFault>
    ensures ok { IfOk result (λ item.
        if_ok (λ table. within list.now position (T.reads known.now table))
        (taken list.now (as_table (view value.now)))
        ≡ Ok item) }
    ensures err { IfErr result (λ e. e ≢ fault.Memory
        → if_ok (λ table. within list.now position (T.reads known.now table))
        (taken list.now (as_table (view value.now)))
        ≡ Err e) }
{
    let Some(table) = value.as_table() else {
        return Err(SettingsFault::BadValue(Key::copied(alloc, list)?));
    };
    match T::read(alloc, known, table) {
        Ok(item) => Ok(item),
        Err(inner) => Err(places::within(alloc, list, position, inner)?),
    }
}

/// The array of tables at the key of a list; empty without the key.
fn tables_at<'a>(alloc: Global, table: &'a Table, list: &str) -> Result<&'a [Value], SettingsFault>
    ensures ok { IfOk result (λ items.
        value_or list.now tables no_items (get_member list.now (table_view table.now))
        ≡ Ok (items_view items.now)) }
    ensures err { IfErr result (λ e. e ≢ fault.Memory
        → value_or list.now tables no_items (get_member list.now (table_view table.now)) ≡ Err e) }
{
    match fields::value_at(table, list) {
        Some(value) => fields::taken(alloc, list, values::tables(value)),
        None => Ok(&[]),
    }
}

/// Refuses a list without items: its key counts as missing.
fn some_items(alloc: Global, list: &str, items: &[Value]) -> Result<(), SettingsFault>
    ensures ok { OnOk result (some_items list.now (items_view items.now)
        ≡ Ok (items_view items.now)) }
    ensures err { IfErr result (λ e. e ≢ fault.Memory
        → some_items list.now (items_view items.now) ≡ Err e) }
{
    if items.len() == 0 {
        return Err(SettingsFault::Missing(Key::copied(alloc, list)?));
    }
    Ok(())
}

/// Refuses a list with more than `most` items.
pub fn few_items(
    alloc: Global,
    list: &str,
    most: usize,
    items: &[Value],
) -> Result<(), SettingsFault>
    ensures ok { OnOk result (few_items list.now most (items_view items.now)
        ≡ Ok (items_view items.now)) }
    ensures err { IfErr result (λ e. e ≢ fault.Memory
        → few_items list.now most (items_view items.now) ≡ Err e) }
{
    if items.len() > most {
        return Err(SettingsFault::TooMany(Key::copied(alloc, list)?));
    }
    Ok(())
}

/// The items of a list of 0 to `most` tables, in the order of the file.
pub fn any_number<T: Item>(
    alloc: Global,
    known: &T::Known,
    table: &Table,
    list: &str,
    most: usize,
) -> Result<Vec<T>, SettingsFault>
    ensures ok { IfOk result (λ items.
        any_number list.now (T.reads known.now) T.key T.order most (table_view table.now)
        ≡ Ok items.items) }
    ensures err { IfErr result (λ e. e ≢ fault.Memory
        → any_number list.now (T.reads known.now) T.key T.order most (table_view table.now)
        ≡ Err e) }
{
    let items = tables_at(alloc, table, list)?;
    few_items(alloc, list, most, items)?;
    read_items(alloc, known, list, items)
}

/// The items of a list of 1 to `most` tables, in ascending order of their keys.
pub fn some_ascending<T: Item>(
    alloc: Global,
    known: &T::Known,
    table: &Table,
    list: &str,
    most: usize,
) -> Result<Items<T>, SettingsFault>
    ensures ok { IfOk result (λ items.
        some_ascending list.now (T.reads known.now) T.key T.order most (table_view table.now)
        ≡ Ok items) }
    ensures err { IfErr result (λ e. e ≢ fault.Memory
        → some_ascending list.now (T.reads known.now) T.key T.order most (table_view table.now)
        ≡ Err e) }
{
    let items = tables_at(alloc, table, list)?;
    some_items(alloc, list, items)?;
    few_items(alloc, list, most, items)?;
    read_ascending(alloc, known, list, items)
}

/// The items of a list of 0 to `most` tables, in ascending order of their keys.
pub fn any_ascending<T: Item>(
    alloc: Global,
    known: &T::Known,
    table: &Table,
    list: &str,
    most: usize,
) -> Result<Items<T>, SettingsFault>
    ensures ok { IfOk result (λ items.
        any_ascending list.now (T.reads known.now) T.key T.order most (table_view table.now)
        ≡ Ok items) }
    ensures err { IfErr result (λ e. e ≢ fault.Memory
        → any_ascending list.now (T.reads known.now) T.key T.order most (table_view table.now)
        ≡ Err e) }
{
    let items = tables_at(alloc, table, list)?;
    few_items(alloc, list, most, items)?;
    read_ascending(alloc, known, list, items)
}

/// An array of tables that reads as these items, whose keys must differ.
pub fn write_items<T: Item>(alloc: Global, items: &[T]) -> Result<Vec<Value>, NoMemory>
    requires lawful { All T.lawful items.now }
    requires distinct { IsDistinct (eq_by_cmp T.order) (map T.key items.now) }
    ensures { IfOk result (λ array. (known : T.Known) → All (T.fits known) items.now
        → IsArrayOf (T.reads known) T.key T.order (suc T.nested) items.now (array_view array)) }
{
    let mut array = Vec::new(alloc);
    for item in items {
        array.push(Value::Table(item.write(alloc)?))?;
    }
    Ok(array)
}
