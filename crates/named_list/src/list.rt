// The list: nodes in a store, and their names in order.
ghost use Rattle.std.specs.Prelude.{◌≡◌, ◌≤◌, ◌<◌, ◌+◌, ◌-◌, ◌*◌, ◌/◌, ◌^◌, [], true, false, length, max, slice_get, IfOk, IfSome, IsSome, IsOk, OnOk, OnErr, None, Some};
ghost use Rattle.std.specs.Borrow.{sem};
ghost use Rattle.std.specs.Fn.{FnReturnsAt};
ghost use Rattle.std.specs.List.{insert, remove};
ghost use Rattle.std.specs.Option.{option_copied};
ghost use Rattle.node_store.specs.Copies.{MakesCopies};
ghost use Rattle.named_list.specs.Named.{item_named};
ghost use Rattle.named_list.specs.Limits.{ring_names};

use crate::names::Names;
use node_store::{NoMemory, NodeStore, Reads};
use std::alloc::Global;
use std::marker::Model;

/// A list of items, each under a name that it keeps while it is in the list. An item that comes
/// into the middle of the list moves names, of four octets each, and no items: names of one ring,
/// one name of each ring behind it, and the names behind all rings. A ring has 512 names, and at
/// most 576 lie behind all rings.
#[derive(Drop)]
pub struct NamedList<T> {
    store: NodeStore<T>,
    // The names in the order of the list.
    order: Names,
}

impl<T> Model for NamedList<T> {
    ghost use Rattle.named_list.specs.Named.{Named, named_of, IsNamedList};

    ghost Value = { Named T };

    ghost view = { λ list. named_of list.store list.order.names list.order.places };

    ghost invariant = { λ list. IsNamedList list.store list.order.names list.order.places };
}

impl<T> NamedList<T> {
    ghost use Rattle.named_list.specs.Lends.{lends_item};

    /// An empty list without room. Takes no memory.
    pub fn new(alloc: Global) -> Self
        ensures items { result.items ≡ [] }
        ensures names { result.names ≡ [] }
        ensures spare { result.spare ≡ 0 }
    {
        NamedList {
            store: NodeStore::new(alloc),
            order: Names::new(alloc),
        }
    }

    /// Makes room for `n` further items; room that is there already counts.
    pub fn reserve(&mut self, n: u32) -> Result<(), NoMemory>
        requires { length self.old.items + n < 2 ^ 32 }
        ensures items { self.new.items ≡ self.old.items }
        ensures names { self.new.names ≡ self.old.names }
        ensures ok { OnOk result (self.new.spare ≡ max self.old.spare n) }
        ensures enough { n ≤ self.old.spare → IsOk result }
        ensures err { OnErr result (self.new.spare ≡ self.old.spare) }
        ensures places { self.new.places
            ≤ max self.old.places (2 * (length self.old.items + n)) }
    {
        let rooms = self.store.rooms();
        if n > rooms {
            self.order.reserve(n)?;
            self.store.make_room(n)?;
        }
        Ok(())
    }

    /// The number of further items for which there is room.
    pub fn spare(&self) -> u32
        ensures { result ≡ self.now.spare }
    {
        self.store.rooms()
    }

    /// The number of items.
    pub fn len(&self) -> usize
        ensures len { result ≡ length self.now.items }
        ensures names { result ≡ length self.now.names }
        ensures kept { self.now.kept ≡ 2 * (result + self.now.spare)
            + (result + self.now.spare) / ring_names }
    {
        let _ = self.store.rooms();
        self.order.len()
    }

    /// The item at a place of the list, or None behind its end.
    pub fn get(&self, index: usize) -> Option<&T>
        ensures { option_copied result ≡ slice_get self.now.items index }
    {
        if index < self.order.len() {
            Some(self.store.read(self.order.get(index), &mut Reads::new()))
        } else {
            None
        }
    }

    /// The first place whose item isn't below, where items that are below stand before those that
    /// aren't, found by halving: the item before that place is below, the one at it isn't.
    pub fn place<F: Fn(&T) -> bool>(&self, is_below: F) -> usize
        requires { F.IsAlwaysCallable is_below }
        ensures within { result ≤ length self.now.items }
        ensures before { 0 < result → IfSome (slice_get self.now.items (result - 1))
            (λ item. FnReturnsAt F.Fn is_below item true) }
        ensures behind { IfSome (slice_get self.now.items result)
            (λ item. FnReturnsAt F.Fn is_below item false) }
    {
        let mut low = 0;
        let mut high = self.order.len();
        while low < high {
            let middle = low + (high - low) / 2;
            if is_below(self.store.read(self.order.get(middle), &mut Reads::new())) {
                low = middle + 1;
            } else {
                high = middle;
            }
        }
        low
    }

    /// Puts an item at a place of the list, before the one that stands there, and returns the name
    /// that it gets. Takes no memory.
    pub fn insert(&mut self, index: usize, item: T) -> u32
        requires place { index ≤ length self.old.items }
        requires room { 0 < self.old.spare }
        ensures items { self.new.items ≡ insert self.old.items index item }
        ensures names { self.new.names ≡ insert self.old.names index result }
        ensures fresh { item_named self.old.names self.old.items result ≡ None }
        ensures spare { self.new.spare + 1 ≡ self.old.spare }
        ensures places { self.new.places ≡ self.old.places }
    {
        let name = self.store.put(item);
        self.order.insert(index, name);
        name
    }

    /// Takes the item at a place out of the list and returns it. Its room is spare again. Takes no
    /// memory.
    pub fn remove(&mut self, index: usize) -> T
        requires { index < length self.old.items }
        ensures item { slice_get self.old.items index ≡ Some result }
        ensures items { self.new.items ≡ remove self.old.items index }
        ensures names { self.new.names ≡ remove self.old.names index }
        ensures spare { self.new.spare ≡ self.old.spare + 1 }
        ensures places { self.new.places ≡ self.old.places }
    {
        let name = self.order.remove(index);
        self.store.drop_node(name)
    }

    /// The item at a place of the list, to be changed. The item keeps its name.
    pub fn edit(&mut self, index: usize) -> &mut T
        requires { index < length self.old.items }
        ensures* writes_back { sem 𝓛 (lends_item T.row self.entry index result) }
        ensures item { slice_get self.old.items index ≡ Some result.now }
    {
        self.store.edit(self.order.get(index))
    }
}

impl<T: Drop> NamedList<T> {
    /// A copy of the list: the same items under the same names, and as much room. `each` copies an
    /// item.
    pub fn copy<F: Fn(&T) -> Result<T, NoMemory>>(&self, each: F) -> Result<Self, NoMemory>
        requires callable { F.IsAlwaysCallable each }
        requires copies { MakesCopies (FnReturnsAt F.Fn each) }
        ensures { IfOk result (λ copy. copy ≡ self.now) }
    {
        let store = self.store.copy(each, &mut Reads::new())?;
        let order = self.order.copy()?;
        Ok(NamedList { store, order })
    }
}
