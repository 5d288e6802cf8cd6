// Removal of a pair from a trie.
ghost use Rattle.std.specs.Prelude.{◌≡◌, ◌+◌, ◌||◌, true, false, not, length, Some, None, IfSome, is_some, if◌then◌else◌};
ghost use Rattle.node_store.specs.Store.{node_at, IsLive, Changes};
ghost use Rattle.prefix_table.specs.Keys.{key_of};
ghost use Rattle.prefix_table.specs.Edited.{Becomes, Holds, Shrinks};
ghost use Rattle.prefix_table.specs.Sides.{on_side, sides};

use crate::key::Key;
use crate::nodes::{NodeRef, Nodes};
use crate::place::{clear_value, drop_value, link};
use mapping_records::Eid;
use node_store::Reads;

/// Takes the pair of an EID out of the trie under a name, whose keys have at least `least` bits.
/// Returns the trie's name then, None where no node is left, and the value. Takes no memory.
pub(crate) fn take_below<V>(
    store: &mut Nodes<V>,
    at: Option<u32>,
    eid: &Eid,
    least: u8,
) -> (Option<u32>, Option<V>)
    requires { Holds store.old at least eid.now }
    ensures { Shrinks store.old store.new at least eid.now result.0 result.1 }
{
    take_under(store, at, eid, &Key::of(eid), least)
}

// Takes the pair of an EID out of the trie under a name, by the EID and its key. Returns the trie's
// name then, and the value.
fn take_under<V>(
    store: &mut Nodes<V>,
    at: Option<u32>,
    eid: &Eid,
    sought: &Key,
    least: u8,
) -> (Option<u32>, Option<V>)
    requires holds { Holds store.old at least eid.now }
    requires key { sought.now ≡ key_of eid.now }
    ensures { Shrinks store.old store.new at least eid.now result.0 result.1 }
{
    let Some(at) = at else {
        return (None, None);
    };
    let mut reads = Reads::new();
    let NodeRef { content, next } = store.read(at, &mut reads);
    let len = content.key.len;
    let valued = content.value.is_some();
    if !content.key.covers(sought) {
        return (Some(at), None);
    }
    if len == sought.len {
        if next.zero.is_some() && next.one.is_some() {
            return (Some(at), clear_value(store, at));
        }
        return (next.zero.or(next.one), drop_value(store, at));
    }
    let side = sought.next_bit(len);
    let (below, was) = take_under(store, next.on(side), eid, sought, len + 1);
    if relink(store, at, side, valued, below) {
        return (Some(at), was);
    }
    (next.on(!side), was)
}

// Sets the name of what is left below a node on a side, or removes the node where it has no value
// and no node is left there. Returns whether the node stays.
fn relink<V>(store: &mut Nodes<V>, at: u32, side: bool, valued: bool, below: Option<u32>) -> bool
    requires live { IsLive store.old at }
    requires below { IfSome below (IsLive store.old) }
    requires valued { (top : _) → node_at store.old at ≡ Some top → valued ≡ is_some top.value }
    ensures left { result ≡ (valued || is_some below) }
    ensures stays { result ≡ true → Becomes store.old store.new at
        (λ top. record top { next = sides side below (on_side (not side) top.next) }) }
    ensures goes { result ≡ false → Changes store.old store.new at None }
    ensures rooms { store.new.rooms ≡ store.old.rooms + (if result then 0 else 1) }
    ensures slots { length store.new.slots ≡ length store.old.slots }
{
    if valued || below.is_some() {
        link(store, at, side, below);
        return true;
    }
    match drop_value(store, at) {
        None => false,
        Some(_) => unreachable!(),
    }
}
