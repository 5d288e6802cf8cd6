// Copies of nodes, and of vectors with their room.
ghost use Rattle.std.specs.Prelude.{◌≡◌, ◌≤◌, ◌<◌, ◌+◌, ◌^◌, IfOk, OnOk, count_by, is_some, length, take, vec_capacity, if◌then◌else◌};
ghost use Rattle.std.specs.Fn.{FnReturnsAt};
ghost use Rattle.node_store.specs.Copies.{MakesCopies};
ghost use Rattle.node_store.specs.Store.{node_at};

use crate::{NoMemory, NodeStore, Reads};
use std::alloc::Global;

/// A copy of a vector: the same items, and as much room in all. The two share no memory.
pub fn copied<T: Copy>(items: &Vec<T>) -> Result<Vec<T>, NoMemory>
    ensures items { IfOk result (λ copy. copy.items ≡ items.now.items) }
    ensures capacity { IfOk result (λ copy. vec_capacity copy ≡ vec_capacity items.now) }
{
    let mut copy = Vec::with_capacity(*items.allocator(), items.capacity())?;
    for item in items {
        copy.push_reserved(*item);
    }
    Ok(copy)
}

// A copy of the node of that name, or None where there is none.
fn copied_slot<T: Drop, F: Fn(&T) -> Result<T, NoMemory>>(
    store: &NodeStore<T>,
    name: u32,
    each: &F,
    reads: &mut Reads,
) -> Result<Option<T>, NoMemory>
    requires callable { F.IsAlwaysCallable each.now }
    requires copies { MakesCopies (FnReturnsAt F.Fn each.now) }
    requires counts { reads.old + 1 < 2 ^ 64 }
    ensures slot { IfOk result (λ slot. slot ≡ node_at store.now name) }
    ensures count { OnOk result (reads.new
        ≡ reads.old + (if is_some (node_at store.now name) then 1 else 0)) }
{
    if !store.has(name) {
        return Ok(None);
    }
    let copy = each(store.read(name, reads))?;
    Ok(Some(copy))
}

/// Copies of the nodes of the first `len` names, in a vector with room for `capacity`.
pub(crate) fn copied_slots<T: Drop, F: Fn(&T) -> Result<T, NoMemory>>(
    alloc: Global,
    store: &NodeStore<T>,
    len: u32,
    capacity: usize,
    each: &F,
    reads: &mut Reads,
) -> Result<Vec<Option<T>>, NoMemory>
    requires within { len ≤ length store.now.slots }
    requires room { len ≤ capacity }
    requires callable { F.IsAlwaysCallable each.now }
    requires copies { MakesCopies (FnReturnsAt F.Fn each.now) }
    requires counts { reads.old < 2 ^ 63 }
    ensures slots { IfOk result (λ slots. slots.items ≡ take len store.now.slots) }
    ensures capacity { IfOk result (λ slots. vec_capacity slots ≡ capacity) }
    ensures count { OnOk result (reads.new
        ≡ reads.old + count_by is_some (take len store.now.slots)) }
{
    let mut slots = Vec::with_capacity(alloc, capacity)?;
    for name in 0..len {
        slots.push_reserved(copied_slot(store, name, each, reads)?);
    }
    Ok(slots)
}
