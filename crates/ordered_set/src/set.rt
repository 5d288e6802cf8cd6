// The set: a list of keys in order.
ghost use Rattle.std.specs.Prelude.{◌≡◌, ◌≤◌, ◌<◌, ◌+◌, ◌-◌, ◌*◌, ◌/◌, ◌^◌, ◌&&◌, ◌||◌, not, [], true, false, length, max, slice_get, slice_set, IfOk, IfSome, IsOk, OnOk, OnErr, Some, if◌then◌else◌};
ghost use Rattle.std.specs.Fn.{FnReturnsAt};
ghost use Rattle.std.specs.List.{insert, remove};
ghost use Rattle.std.specs.Option.{option_copied};
ghost use Rattle.std.specs.Ordering.{is_eq, is_lt};
ghost use Rattle.named_list.specs.Limits.{ring_names};
ghost use Rattle.ordered_set.specs.Keys.{Ascends, IsPlace, has, ties};

use crate::{NoMemory, Ordered};
use named_list::NamedList;
use std::alloc::Global;
use std::marker::Model;

/// Keys in ascending order, each once.
#[derive(Drop)]
pub struct OrderedSet<K: Ordered> {
    list: NamedList<K>,
}

impl<K: Ordered> Model for OrderedSet<K> {
    ghost use Rattle.ordered_set.specs.Keys.{Ascends, Keys};

    ghost Value = { Keys K };

    ghost view = { λ set. record {
      keys = set.list.items;
      spare = set.list.spare;
      kept = set.list.kept;
      places = set.list.places;
    } };

    ghost invariant = { λ set. Ascends K.order set.list.items };
}

impl<K: Ordered> OrderedSet<K> {
    /// An empty set without room. Takes no memory.
    pub fn new(alloc: Global) -> Self
        ensures keys { result.keys ≡ [] }
        ensures spare { result.spare ≡ 0 }
    {
        OrderedSet {
            list: NamedList::new(alloc),
        }
    }

    /// Makes room for `n` further keys; room that is there already counts.
    pub fn reserve(&mut self, n: u32) -> Result<(), NoMemory>
        requires { length self.old.keys + n < 2 ^ 32 }
        ensures keys { self.new.keys ≡ self.old.keys }
        ensures ok { OnOk result (self.new.spare ≡ max self.old.spare n) }
        ensures enough { n ≤ self.old.spare → IsOk result }
        ensures err { OnErr result (self.new.spare ≡ self.old.spare) }
        ensures places { self.new.places
            ≤ max self.old.places (2 * (length self.old.keys + n)) }
    {
        self.list.reserve(n)
    }

    /// The number of further keys for which there is room.
    pub fn spare(&self) -> u32
        ensures { result ≡ self.now.spare }
    {
        self.list.spare()
    }

    /// The number of keys.
    pub fn len(&self) -> usize
        ensures len { result ≡ length self.now.keys }
        ensures ascends { Ascends K.order self.now.keys }
        ensures kept { self.now.kept ≡ 2 * (result + self.now.spare)
            + (result + self.now.spare) / ring_names }
    {
        self.list.len()
    }

    /// The key at a place, the least at 0, or None behind the end.
    pub fn get(&self, index: usize) -> Option<&K>
        ensures { option_copied result ≡ slice_get self.now.keys index }
    {
        self.list.get(index)
    }

    /// The first place whose key isn't below, where keys that are below stand before those that
    /// aren't, found by halving: the key before that place is below, the one at it isn't.
    pub fn place<F: Fn(&K) -> bool>(&self, is_below: F) -> usize
        requires { F.IsAlwaysCallable is_below }
        ensures within { result ≤ length self.now.keys }
        ensures before { 0 < result → IfSome (slice_get self.now.keys (result - 1))
            (λ key. FnReturnsAt F.Fn is_below key true) }
        ensures behind { IfSome (slice_get self.now.keys result)
            (λ key. FnReturnsAt F.Fn is_below key false) }
    {
        self.list.place(is_below)
    }

    /// Whether the key is in the set.
    pub fn contains(&self, key: &K) -> bool
        ensures { result ≡ has K.order key.now self.now.keys }
    {
        self.is_at(self.place_of(key), key)
    }

    /// Puts a key into the set, and returns whether it is new there. Takes no memory.
    pub fn insert(&mut self, key: K) -> bool
        requires { has K.order key self.old.keys ≡ false → 0 < self.old.spare }
        ensures new { result ≡ not (has K.order key self.old.keys) }
        ensures members { (other : _) → has K.order other self.new.keys
            ≡ (is_eq (K.order key other) || has K.order other self.old.keys) }
        ensures len { length self.new.keys ≡ length self.old.keys + (if result then 1 else 0) }
        ensures spare { self.new.spare ≡ self.old.spare - (if result then 1 else 0) }
        ensures places { self.new.places ≡ self.old.places }
    {
        let place = self.place_to_put(&key);
        if self.is_at(place, &key) {
            return false;
        }
        self.list.insert(place, key);
        true
    }

    /// Takes a key out of the set, and returns whether it was there. Its room is spare again. Takes
    /// no memory.
    pub fn remove(&mut self, key: &K) -> bool
        ensures was { result ≡ has K.order key.now self.old.keys }
        ensures members { (other : _) → has K.order other self.new.keys
            ≡ (not (is_eq (K.order key.now other)) && has K.order other self.old.keys) }
        ensures len { length self.new.keys + (if result then 1 else 0) ≡ length self.old.keys }
        ensures spare { self.new.spare ≡ self.old.spare + (if result then 1 else 0) }
        ensures places { self.new.places ≡ self.old.places }
    {
        let place = self.place_to_take(key);
        if !self.is_at(place, key) {
            return false;
        }
        self.list.remove(place);
        true
    }

    /// Puts a key that isn't in the set at its place. Takes no memory.
    pub fn put_at(&mut self, place: usize, key: K)
        requires place { IsPlace K.order key self.old.keys place }
        requires apart { ties K.order key (slice_get self.old.keys place) ≡ false }
        requires room { 0 < self.old.spare }
        ensures keys { self.new.keys ≡ insert self.old.keys place key }
        ensures spare { self.new.spare + 1 ≡ self.old.spare }
        ensures places { self.new.places ≡ self.old.places }
    {
        self.list.insert(place, key);
    }

    /// Takes the key at a place out of the set, and returns it. Its room is spare again. Takes no
    /// memory.
    pub fn take_at(&mut self, place: usize) -> K
        requires { place < length self.old.keys }
        ensures key { slice_get self.old.keys place ≡ Some result }
        ensures keys { self.new.keys ≡ remove self.old.keys place }
        ensures spare { self.new.spare ≡ self.old.spare + 1 }
        ensures places { self.new.places ≡ self.old.places }
    {
        self.list.remove(place)
    }

    /// Replaces the key at a place by one that ties with it.
    pub fn replace_at(&mut self, place: usize, key: K)
        requires { ties K.order key (slice_get self.old.keys place) ≡ true }
        ensures keys { self.new.keys ≡ slice_set self.old.keys place key }
        ensures spare { self.new.spare ≡ self.old.spare }
        ensures places { self.new.places ≡ self.old.places }
    {
        *self.list.edit(place) = key;
    }

    // The place of a key, or the one at which it would be put.
    fn place_of(&self, key: &K) -> usize
        ensures { IsPlace K.order key.now self.now.keys result }
    {
        self.list.place(|other| other.compare(key).is_lt())
    }

    // The place at which a key would be put. The end is tried first, because a key that comes is
    // mostly the greatest.
    fn place_to_put(&self, key: &K) -> usize
        ensures { IsPlace K.order key.now self.now.keys result }
    {
        let len = self.list.len();
        if len > 0 && self.is_below(len - 1, key) {
            return len;
        }
        self.place_of(key)
    }

    // The place of a key that is to be taken out. Place 0 is tried first, because a key that goes
    // is mostly the least.
    fn place_to_take(&self, key: &K) -> usize
        ensures { IsPlace K.order key.now self.now.keys result }
    {
        // Naming the list brings the fact that its keys ascend.
        let _ = &self.list;
        if self.is_at(0, key) {
            return 0;
        }
        self.place_of(key)
    }

    // Whether the key at that place is below another.
    fn is_below(&self, place: usize, key: &K) -> bool
        requires { place < length self.now.keys }
        ensures { IfSome (slice_get self.now.keys place)
            (λ other. result ≡ is_lt (K.order other key.now)) }
    {
        match self.list.get(place) {
            None => false,
            Some(other) => other.compare(key).is_lt(),
        }
    }

    // Whether the key stands at that place.
    fn is_at(&self, place: usize, key: &K) -> bool
        ensures { result ≡ ties K.order key.now (slice_get self.now.keys place) }
    {
        match self.list.get(place) {
            None => false,
            Some(other) => other.compare(key).is_eq(),
        }
    }
}

impl<K: Ordered + Copy> OrderedSet<K> {
    /// A copy of the set: the same keys, and as much room.
    pub fn copy(&self) -> Result<Self, NoMemory>
        ensures { IfOk result (λ copy. copy ≡ self.now) }
    {
        let list = self.list.copy(|key| Ok(*key))?;
        Ok(OrderedSet { list })
    }
}
