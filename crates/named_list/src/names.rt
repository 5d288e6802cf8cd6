// Names in order: full rings, and behind them few names, which lie in order.
ghost use Rattle.std.specs.Prelude.{◌≡◌, ◌≤◌, ◌<◌, ◌+◌, ◌*◌, [], length, max, slice_index_or, IfOk, OnOk, vec_len, vec_capacity};
ghost use Rattle.std.specs.List.{insert, remove};
ghost use Rattle.named_list.specs.Limits.{ring_names, spare_names};
ghost use Rattle.named_list.specs.Rings.{AreHeads, IsOrder, joined};

use crate::rings::{insert_below, remove_below, straighten, turned};
use crate::{RING_NAMES, SPARE_NAMES};
use node_store::{NoMemory, copied};
use std::alloc::Global;
use std::marker::Model;

// Names in order. A name that comes into the middle moves names of one ring, of four octets each,
// one name of each ring behind it, and the names behind all rings.
#[derive(Drop)]
pub(crate) struct Names {
    slots: Vec<u32>,
    // The place in each full ring at which its names begin.
    heads: Vec<usize>,
}

impl Model for Names {
    ghost use Rattle.std.specs.Prelude.{vec_capacity};
    ghost use Rattle.named_list.specs.Limits.{ring_names};
    ghost use Rattle.named_list.specs.Rings.{IsOrder, Order, joined};

    ghost Value = { Order };

    ghost view = { λ order. record {
      names = joined ring_names order.heads.items order.slots.items;
      places = vec_capacity order.slots;
    } };

    ghost invariant = { λ order. IsOrder order.heads.items order.slots.items
        (vec_capacity order.slots) (vec_capacity order.heads) };
}

// Makes the first of the names behind the rings a ring, where `SPARE_NAMES` are left behind it. So
// many names go before that ring is taken apart.
fn close_last(slots: &Vec<u32>, heads: &mut Vec<usize>)
    requires { IsOrder heads.old.items slots.now.items (vec_capacity slots.now)
        (vec_capacity heads.old) }
    ensures names { joined ring_names heads.new.items slots.now.items
        ≡ joined ring_names heads.old.items slots.now.items }
    ensures order { IsOrder heads.new.items slots.now.items (vec_capacity slots.now)
        (vec_capacity heads.new) }
    ensures last { length slots.now.items < length heads.new.items * ring_names
        + (ring_names + spare_names) }
{
    if slots.len() == heads.len() * RING_NAMES + (RING_NAMES + SPARE_NAMES) {
        heads.push_reserved(0);
    }
}

// Takes the last ring apart, so that its names lie behind the rings, where no other names do.
fn open_last(slots: &mut Vec<u32>, heads: &mut Vec<usize>)
    requires order { IsOrder heads.old.items slots.old.items (vec_capacity slots.old)
        (vec_capacity heads.old) }
    requires some { 0 < length slots.old.items }
    ensures names { joined ring_names heads.new.items slots.new.items
        ≡ joined ring_names heads.old.items slots.old.items }
    ensures order { IsOrder heads.new.items slots.new.items (vec_capacity slots.new)
        (vec_capacity heads.new) }
    ensures last { length heads.new.items * ring_names < length slots.new.items }
    ensures len { length slots.new.items ≡ length slots.old.items }
    ensures places { vec_capacity slots.new ≡ vec_capacity slots.old }
{
    if slots.len() == heads.len() * RING_NAMES {
        if let Some(head) = heads.pop() {
            straighten(&mut slots[heads.len() * RING_NAMES..], head);
        }
    }
}

// Puts a name at a place of the slots, where there is room for it.
fn insert_slot(slots: &mut Vec<u32>, index: usize, name: u32)
    requires index { index ≤ vec_len slots.old }
    requires room { vec_len slots.old < vec_capacity slots.old }
    ensures items { slots.new.items ≡ insert slots.old.items index name }
    ensures len { vec_len slots.new ≡ vec_len slots.old + 1 }
    ensures places { vec_capacity slots.new ≡ vec_capacity slots.old }
{
    slots.push_reserved(name);
    slots[index..].rotate_right(1);
}

// Takes the name at a place out of the slots and returns it.
fn remove_slot(slots: &mut Vec<u32>, index: usize) -> u32
    requires { index < vec_len slots.old }
    ensures name { result ≡ slice_index_or slots.old.items index result }
    ensures items { slots.new.items ≡ remove slots.old.items index }
    ensures len { vec_len slots.new + 1 ≡ vec_len slots.old }
    ensures places { vec_capacity slots.new ≡ vec_capacity slots.old }
{
    let name = slots[index];
    slots[index..].rotate_left(1);
    slots.pop();
    name
}

// Puts a name at a place, with room for one more name behind the rings.
fn insert_name(slots: &mut Vec<u32>, heads: &mut [usize], index: usize, name: u32)
    requires each { AreHeads heads.old }
    requires full { length heads.old * ring_names ≤ length slots.old.items }
    requires index { index ≤ length slots.old.items }
    requires room { vec_len slots.old < vec_capacity slots.old }
    ensures names { joined ring_names heads.new slots.new.items
        ≡ insert (joined ring_names heads.old slots.old.items) index name }
    ensures each { AreHeads heads.new }
    ensures heads_len { length heads.new ≡ length heads.old }
    ensures len { length slots.new.items ≡ length slots.old.items + 1 }
    ensures places { vec_capacity slots.new ≡ vec_capacity slots.old }
{
    let full = heads.len() * RING_NAMES;
    if index >= full {
        insert_slot(slots, index, name);
        return;
    }
    let carried = insert_below(&mut slots[0..full], heads, index, name);
    insert_slot(slots, full, carried);
}

// Takes the name at a place out and returns it, where at least one name lies behind the rings.
fn remove_name(slots: &mut Vec<u32>, heads: &mut [usize], index: usize) -> u32
    requires each { AreHeads heads.old }
    requires full { length heads.old * ring_names < length slots.old.items }
    requires index { index < length slots.old.items }
    ensures name { result
        ≡ slice_index_or (joined ring_names heads.old slots.old.items) index result }
    ensures names { joined ring_names heads.new slots.new.items
        ≡ remove (joined ring_names heads.old slots.old.items) index }
    ensures each { AreHeads heads.new }
    ensures heads_len { length heads.new ≡ length heads.old }
    ensures len { length slots.new.items + 1 ≡ length slots.old.items }
    ensures places { vec_capacity slots.new ≡ vec_capacity slots.old }
{
    let full = heads.len() * RING_NAMES;
    if index >= full {
        return remove_slot(slots, index);
    }
    let carried = remove_slot(slots, full);
    remove_below(&mut slots[0..full], heads, index, carried)
}

impl Names {
    // No names, without room. Takes no memory.
    pub(crate) fn new(alloc: Global) -> Names
        ensures { result.names ≡ [] }
    {
        Names {
            slots: Vec::new(alloc),
            heads: Vec::new(alloc),
        }
    }

    // Makes room for `n` further names. Where there is too little, it makes room for twice the
    // names and `n` together, so that names are seldom moved, even where there is more room than
    // names.
    pub(crate) fn reserve(&mut self, n: u32) -> Result<(), NoMemory>
        ensures names { self.new.names ≡ self.old.names }
        ensures ok { OnOk result (length self.old.names + n ≤ self.new.places) }
        ensures places { self.old.places ≤ self.new.places }
        ensures at_most { self.new.places
            ≤ max self.old.places (2 * (length self.old.names + n)) }
    {
        let len = self.slots.len();
        let n = n as usize;
        if self.slots.capacity() - len < n {
            let more = 2 * n + len;
            self.heads
                .reserve((len + more) / RING_NAMES - self.heads.len())?;
            self.slots.reserve_exact(more)?;
        }
        Ok(())
    }

    // The number of names.
    pub(crate) fn len(&self) -> usize
        ensures len { result ≡ length self.now.names }
        ensures places { result ≤ self.now.places }
    {
        self.slots.len()
    }

    // The name at a place.
    pub(crate) fn get(&self, index: usize) -> u32
        requires { index < length self.now.names }
        ensures { result ≡ slice_index_or self.now.names index result }
    {
        if index >= self.heads.len() * RING_NAMES {
            return self.slots[index];
        }
        let ring = index / RING_NAMES;
        let place = turned(self.heads[ring], index % RING_NAMES);
        self.slots[ring * RING_NAMES + place]
    }

    // Puts a name at a place, before the one that stands there. Takes no memory.
    pub(crate) fn insert(&mut self, index: usize, name: u32)
        requires place { index ≤ length self.old.names }
        requires room { length self.old.names < self.old.places }
        ensures names { self.new.names ≡ insert self.old.names index name }
        ensures places { self.new.places ≡ self.old.places }
    {
        close_last(&self.slots, &mut self.heads);
        insert_name(&mut self.slots, &mut self.heads, index, name);
    }

    // Takes the name at a place out and returns it.
    pub(crate) fn remove(&mut self, index: usize) -> u32
        requires { index < length self.old.names }
        ensures name { result ≡ slice_index_or self.old.names index result }
        ensures names { self.new.names ≡ remove self.old.names index }
        ensures places { self.new.places ≡ self.old.places }
    {
        open_last(&mut self.slots, &mut self.heads);
        remove_name(&mut self.slots, &mut self.heads, index)
    }

    // A copy of the names, with as much room.
    pub(crate) fn copy(&self) -> Result<Names, NoMemory>
        ensures { IfOk result (λ copy. copy ≡ self.now) }
    {
        let slots = copied(&self.slots)?;
        let heads = copied(&self.heads)?;
        Ok(Names { slots, heads })
    }
}
