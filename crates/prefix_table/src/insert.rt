// Insertion of a pair into a trie.
ghost use Rattle.std.specs.Prelude.{◌≡◌, ◌≢◌, ◌<◌, ◌≤◌, ◌+◌, true, false, Some, None, IsSome};
ghost use Rattle.node_store.specs.Store.{node_at, IsLive};
ghost use Rattle.mapping_records.specs.Eids.{covers_eid};
ghost use Rattle.prefix_table.specs.Keys.{key_bits, key_len, key_of, key_width};
ghost use Rattle.prefix_table.specs.Edited.{Puts, Takes};

use crate::common::common;
use crate::key::Key;
use crate::node::{Node, Sides};
use crate::nodes::{NodeRef, Nodes};
use crate::place::{link, swap_value};
use crate::search::next_bit;
use mapping_records::Eid;
use node_store::Reads;

/// Puts a pair into the trie under a name, whose keys have at least `least` bits, or replaces the
/// value of its EID. Returns the trie's name then, and the former value. Takes no memory.
pub(crate) fn put_below<V>(
    store: &mut Nodes<V>,
    at: Option<u32>,
    eid: &Eid,
    value: V,
    least: u8,
) -> (u32, Option<V>)
    requires { Takes store.old at least eid.now }
    ensures { Puts store.old store.new at least eid.now value result.0 result.1 }
{
    let mut value = Some(value);
    let name = put_under(store, at, eid, &Key::of(eid), &mut value, least);
    (name, value)
}

// Puts a pair into the trie under a name, by its EID and the EID's key, and returns the trie's name
// then. Exchanges the value for the former one.
fn put_under<V>(
    store: &mut Nodes<V>,
    at: Option<u32>,
    eid: &Eid,
    sought: &Key,
    value: &mut Option<V>,
    least: u8,
) -> u32
    requires takes { Takes store.old at least eid.now }
    requires key { sought.now ≡ key_of eid.now }
    requires value { IsSome value.old }
    ensures { (given : _) → value.old ≡ Some given
        → Puts store.old store.new at least eid.now given result value.new }
{
    let Some(at) = at else {
        return put_leaf(store, eid, value);
    };
    let mut reads = Reads::new();
    let NodeRef { content, next } = store.read(at, &mut reads);
    let len = content.key.len;
    if !content.key.covers(sought) {
        return put_apart(store, at, eid, value, least);
    }
    if len == sought.len {
        swap_value(store, at, value);
        return at;
    }
    let side = sought.next_bit(len);
    let name = put_under(store, next.on(side), eid, sought, value, len + 1);
    link(store, at, side, Some(name));
    at
}

// Makes a leaf where there was no node, and returns its name.
fn put_leaf<V>(store: &mut Nodes<V>, eid: &Eid, value: &mut Option<V>) -> u32
    requires { 2 ≤ store.old.rooms }
    ensures { (given : _) → value.old ≡ Some given
        → (least : _) → Puts store.old store.new None least eid.now given result value.new }
{
    store.put(Node {
        eid: *eid,
        value: value.take(),
        next: Sides {
            zero: None,
            one: None,
        },
    })
}

// Makes a node above the trie or beside it, where the EID doesn't begin with the key of the trie's
// node. Apart from the way down, because each step of it would clear room for what is held here.
fn put_apart<V>(store: &mut Nodes<V>, at: u32, eid: &Eid, value: &mut Option<V>, least: u8) -> u32
    requires takes { Takes store.old (Some at) least eid.now }
    requires apart { (top : _) → node_at store.old at ≡ Some top
        → covers_eid top.eid eid.now ≡ false }
    ensures { (given : _) → value.old ≡ Some given
        → Puts store.old store.new (Some at) least eid.now given result value.new }
{
    let key = store.content(at).eid;
    if eid.covers(&key) {
        return put_above(store, at, key, *eid, value.take());
    }
    put_beside(store, at, key, *eid, value.take(), least)
}

// Makes a node above the trie, whose keys it covers, and returns its name.
fn put_above<V>(store: &mut Nodes<V>, at: u32, key: Eid, eid: Eid, value: Option<V>) -> u32
    requires rooms { 2 ≤ store.old.rooms }
    requires top { (top : _) → node_at store.old at ≡ Some top → top.eid ≡ key }
    requires live { IsLive store.old at }
    requires above { covers_eid eid key ≡ true }
    requires not_below { covers_eid key eid ≡ false }
    ensures { (given : _) → value ≡ Some given
        → (least : _) → Puts store.old store.new (Some at) least eid given result None }
{
    let side = next_bit(key.prefix.addr, eid.prefix.len);
    store.put(Node {
        eid,
        value,
        next: Sides::new(side, Some(at), None),
    })
}

// Makes a node without a value above the trie and a new leaf, and returns its name.
fn put_beside<V>(
    store: &mut Nodes<V>,
    at: u32,
    key: Eid,
    eid: Eid,
    value: Option<V>,
    least: u8,
) -> u32
    requires rooms { 2 ≤ store.old.rooms }
    requires top { (top : _) → node_at store.old at ≡ Some top → top.eid ≡ key }
    requires live { IsLive store.old at }
    requires takes { Takes store.old (Some at) least eid }
    requires not_above { covers_eid eid key ≡ false }
    requires not_below { covers_eid key eid ≡ false }
    ensures { (given : _) → value ≡ Some given
        → Puts store.old store.new (Some at) least eid given result None }
{
    let over = common(key, eid, least);
    let leaf = store.put(Node {
        eid,
        value,
        next: Sides {
            zero: None,
            one: None,
        },
    });
    let side = next_bit(eid.prefix.addr, over.prefix.len);
    store.put(Node {
        eid: over,
        value: None,
        next: Sides::new(side, Some(leaf), Some(at)),
    })
}
