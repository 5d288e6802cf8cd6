// Writes of single nodes.
ghost use Rattle.std.specs.Prelude.{◌≡◌, ◌+◌, not, length, Some, None, IfSome};
ghost use Rattle.node_store.specs.Store.{node_at, IsLive, Changes};
ghost use Rattle.prefix_table.specs.Edited.{Becomes};
ghost use Rattle.prefix_table.specs.Sides.{on_side, sides};

use crate::node::link_to;
use crate::nodes::Nodes;
use std::mem;

/// Exchanges the value of a node for another.
pub(crate) fn swap_value<V>(store: &mut Nodes<V>, at: u32, value: &mut Option<V>)
    requires { IsLive store.old at }
    ensures was { (top : _) → node_at store.old at ≡ Some top → value.new ≡ top.value }
    ensures changes { Becomes store.old store.new at (λ top. record top { value = value.old }) }
    ensures rooms { store.new.rooms ≡ store.old.rooms }
    ensures slots { length store.new.slots ≡ length store.old.slots }
{
    let way = store.ways.edit(at);
    way.valued = value.is_some();
    mem::swap(&mut store.contents[at as usize].value, value);
}

/// Sets the name of the node below a node on a side.
pub(crate) fn link<V>(store: &mut Nodes<V>, at: u32, side: bool, below: Option<u32>)
    requires live { IsLive store.old at }
    requires below { IfSome below (IsLive store.old) }
    ensures changes { Becomes store.old store.new at
        (λ top. record top { next = sides side below (on_side (not side) top.next) }) }
    ensures rooms { store.new.rooms ≡ store.old.rooms }
    ensures slots { length store.new.slots ≡ length store.old.slots }
{
    let way = store.ways.edit(at);
    way.next.set(side, link_to(below));
}

/// Takes the value out of a node, which stays, and returns it.
pub(crate) fn clear_value<V>(store: &mut Nodes<V>, at: u32) -> Option<V>
    requires { IsLive store.old at }
    ensures was { (top : _) → node_at store.old at ≡ Some top → result ≡ top.value }
    ensures changes { Becomes store.old store.new at (λ top. record top { value = None }) }
    ensures rooms { store.new.rooms ≡ store.old.rooms }
    ensures slots { length store.new.slots ≡ length store.old.slots }
{
    let mut value = None;
    swap_value(store, at, &mut value);
    value
}

/// Removes a node, and returns its value.
pub(crate) fn drop_value<V>(store: &mut Nodes<V>, at: u32) -> Option<V>
    requires { IsLive store.old at }
    ensures was { (top : _) → node_at store.old at ≡ Some top → result ≡ top.value }
    ensures changes { Changes store.old store.new at None }
    ensures rooms { store.new.rooms ≡ store.old.rooms + 1 }
    ensures slots { length store.new.slots ≡ length store.old.slots }
{
    store.ways.drop_node(at);
    store.contents[at as usize].value.take()
}
