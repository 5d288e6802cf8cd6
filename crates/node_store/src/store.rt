// Nodes under names that the store picks.
ghost use Rattle.std.specs.Prelude.{◌≡◌, ◌+◌, ◌^◌, ◌<◌, ◌≤◌, [], ◌∷◌, ◌++◌, max, length, OnOk, OnErr, Some, None, IfOk, IsOk, IsSome, is_some, vec_len, vec_capacity};
ghost use Rattle.std.specs.Borrow.{sem};
ghost use Rattle.std.specs.Fn.{FnReturnsAt};
ghost use Rattle.node_store.specs.Copies.{MakesCopies};
ghost use Rattle.node_store.specs.LendsSlot.{lends_slot};
ghost use Rattle.node_store.specs.Store.{node_at, IsLive, live, SameNodes, Changes};

use crate::copies::{copied, copied_slots};
use crate::{NoMemory, Reads};
use std::alloc::Global;
use std::marker::Model;
use std::mem;

/// Nodes, each under a name that it keeps until it is dropped. A reader gets a node by `read`
/// alone, which counts it.
#[derive(Drop)]
pub struct NodeStore<T> {
    // A slot is pushed when its name is first used.
    slots: Vec<Option<T>>,
    // The names of the vacant slots, with room for all names.
    free: Vec<u32>,
    // For how many further names, from the number of slots on, there is room.
    fresh: u32,
}

impl<T> Model for NodeStore<T> {
    ghost use Rattle.std.specs.Prelude.{◌+◌, ◌++◌, None, length, replicate, vec_capacity};
    ghost use Rattle.node_store.specs.Store.{Store};
    ghost use Rattle.node_store.specs.Sound.{IsSound};

    ghost Value = { Store T };

    ghost view = { λ store. record {
      slots = store.slots.items ++ replicate store.fresh None;
      rooms = length store.free.items + store.fresh;
    } };

    ghost invariant = { λ store. IsSound store.slots.items store.free.items store.fresh
        (vec_capacity store.slots) (vec_capacity store.free) };
}

fn node_mut<T>(slot: &mut Option<T>) -> &mut T
    requires { IsSome slot.old }
    ensures* writes_back { sem 𝓛 (lends_slot T.row slot.entry result) }
    ensures node { slot.old ≡ Some result.now }
{
    match slot {
        Some(node) => node,
        None => unreachable!(),
    }
}

// Pushes a node into a new slot. Its name is the number of slots before it.
fn push_node<T>(slots: &mut Vec<Option<T>>, node: T) -> u32
    requires room { vec_len slots.old < vec_capacity slots.old }
    requires few { vec_len slots.old < 2 ^ 32 }
    ensures name { result ≡ length slots.old.items }
    ensures items { slots.new.items ≡ slots.old.items ++ Some node ∷ [] }
    ensures capacity { vec_capacity slots.new ≡ vec_capacity slots.old }
{
    let name = slots.len() as u32;
    slots.push_reserved(Some(node));
    name
}

impl<T> NodeStore<T> {
    ghost use Rattle.node_store.specs.Lends.{lends_node};

    /// An empty store without room. Takes no memory.
    pub fn new(alloc: Global) -> Self
        ensures empty { result.slots ≡ [] }
        ensures rooms { result.rooms ≡ 0 }
    {
        NodeStore {
            slots: Vec::new(alloc),
            free: Vec::new(alloc),
            fresh: 0,
        }
    }

    /// Makes room for `n` further nodes; room that is there already counts.
    pub fn make_room(&mut self, n: u32) -> Result<(), NoMemory>
        requires { live self.old + n < 2 ^ 32 }
        ensures nodes { SameNodes self.old self.new }
        ensures ok { OnOk result (self.new.rooms ≡ max self.old.rooms n) }
        ensures enough { n ≤ self.old.rooms → IsOk result }
        ensures slots { length self.new.slots ≡ live self.old + self.new.rooms }
        ensures err { OnErr result (self.new ≡ self.old) }
    {
        let rooms = self.rooms();
        if n <= rooms {
            return Ok(());
        }
        let fresh = self.fresh + (n - rooms);
        let all = self.slots.len() + fresh as usize;
        self.slots.reserve(fresh as usize)?;
        self.free.reserve(all - self.free.len())?;
        self.fresh = fresh;
        Ok(())
    }

    /// The number of nodes for which there is room.
    pub fn rooms(&self) -> u32
        ensures rooms { result ≡ self.now.rooms }
        ensures slots { length self.now.slots ≡ live self.now + result }
    {
        self.free.len() as u32 + self.fresh
    }

    /// The node of that name. The read is counted in `reads`.
    pub fn read(&self, id: u32, reads: &mut Reads) -> &T
        requires live { IsLive self.now id }
        requires counts { reads.old + 1 < 2 ^ 64 }
        ensures node { node_at self.now id ≡ Some result.now }
        ensures count { reads.new ≡ reads.old + 1 }
    {
        reads.add_one();
        let Some(node) = &self.slots[id as usize] else {
            unreachable!();
        };
        node
    }

    /// Whether there is a node of that name.
    pub fn has(&self, name: u32) -> bool
        ensures { result ≡ is_some (node_at self.now name) }
    {
        match self.slots.get(name as usize) {
            Some(slot) => slot.is_some(),
            None => false,
        }
    }

    /// Puts a node under a name that has none, and returns the name. Takes no memory.
    pub fn put(&mut self, node: T) -> u32
        requires { 0 < self.old.rooms }
        ensures fresh { node_at self.old result ≡ None }
        ensures changes { Changes self.old self.new result (Some node) }
        ensures rooms { self.new.rooms + 1 ≡ self.old.rooms }
        ensures slots { length self.new.slots ≡ length self.old.slots }
    {
        let Some(name) = self.free.pop() else {
            self.fresh -= 1;
            return push_node(&mut self.slots, node);
        };
        match mem::replace(&mut self.slots[name as usize], Some(node)) {
            None => name,
            Some(_) => unreachable!(),
        }
    }

    /// The node of that name, to be changed.
    pub fn edit(&mut self, id: u32) -> &mut T
        requires { IsLive self.old id }
        ensures* writes_back { sem 𝓛 (lends_node T.row self.entry id result) }
        ensures node { node_at self.old id ≡ Some result.now }
    {
        node_mut(&mut self.slots[id as usize])
    }

    /// Takes the node of that name out and returns it, which leaves room for another.
    pub fn drop_node(&mut self, id: u32) -> T
        requires { IsLive self.old id }
        ensures node { node_at self.old id ≡ Some result }
        ensures changes { Changes self.old self.new id None }
        ensures rooms { self.new.rooms ≡ self.old.rooms + 1 }
        ensures slots { length self.new.slots ≡ length self.old.slots }
    {
        match self.slots[id as usize].take() {
            Some(node) => {
                self.free.push_reserved(id);
                node
            }
            None => unreachable!(),
        }
    }
}

impl<T: Drop> NodeStore<T> {
    /// A copy of the store: the same nodes under the same names, and as much room. `each` copies a
    /// node, which is read, and counted, once.
    pub fn copy<F: Fn(&T) -> Result<T, NoMemory>>(
        &self,
        each: F,
        reads: &mut Reads,
    ) -> Result<Self, NoMemory>
        requires callable { F.IsAlwaysCallable each }
        requires copies { MakesCopies (FnReturnsAt F.Fn each) }
        requires counts { reads.old < 2 ^ 63 }
        ensures copy { IfOk result (λ copy. copy ≡ self.now) }
        ensures count { OnOk result (reads.new ≡ reads.old + live self.now) }
    {
        let len = self.slots.len() as u32;
        let capacity = self.slots.capacity();
        let alloc = *self.slots.allocator();
        let slots = copied_slots(alloc, self, len, capacity, &each, reads)?;
        let free = copied(&self.free)?;
        Ok(NodeStore {
            slots,
            free,
            fresh: self.fresh,
        })
    }
}
