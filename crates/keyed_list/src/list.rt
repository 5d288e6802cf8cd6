// The list: numbered items, their keys and their ages.
ghost use Rattle.std.specs.Prelude.{◌≡◌, ◌≤◌, ◌<◌, ◌+◌, ◌*◌, ◌/◌, ◌^◌, [], ◌∷◌, ◌++◌, Bool, not, count_by, filter, length, map, max, slice_get, Some, false, is_some, true, IsOk, OnOk, OnErr, IfOk, IfSome, ◌&&◌};
ghost use Rattle.std.specs.List.{list_all, remove};
ghost use Rattle.std.specs.Fn.{FnReturnsAt};
ghost use Rattle.std.specs.Option.{option_copied};
ghost use Rattle.keyed_list.specs.Keyed.{changed_like, changed_with, is_key, is_young, item_at, latest};
ghost use Rattle.keyed_list.specs.Limits.{most_items, ring_names};
ghost use Rattle.keyed_list.specs.Lists.{last_where};

use crate::ages::{add_age, drop_age};
use crate::changing::{change_from, change_like};
use crate::finding::{count_young, later, old_place, place_before, place_last, place_last_like};
use crate::key::{Age, Mark};
use crate::keyed::{Numbered, copied};
use crate::linking::{put, unlink};
use crate::marks::put_marks;
use crate::{Key, Keyed, MOST_ITEMS, NoMemory};
use named_list::NamedList;
use ordered_set::OrderedSet;
use std::alloc::Global;
use std::marker::Model;

/// A list of items in order of coming. Items that have a key are found by it, and old items by
/// their age, without a look at the others.
#[derive(Drop)]
pub struct KeyedList<T: Keyed> {
    // Items with their numbers, which ascend.
    list: NamedList<Numbered<T>>,
    // The last item of each key.
    index: OrderedSet<Mark>,
    ages: OrderedSet<Age>,
    // The number of the next item.
    next: u64,
}

impl<T: Keyed> Model for KeyedList<T> {
    ghost use Rattle.std.specs.Prelude.{◌+◌, ◌-◌, ◌*◌, ◌^◌, ◌<◌, All, length, map, max, min};
    ghost use Rattle.keyed_list.specs.Keyed.{HasPlaces, IsKeyed, Kept};

    ghost Value = { Kept T };

    ghost view = { λ keyed. record {
      items = map (λ numbered. numbered.item) keyed.list.items;
      room = min keyed.list.spare (2 ^ 64 - 1 - keyed.next);
      places = max (length keyed.index.keys + keyed.index.spare)
          (2 * (length keyed.ages.keys + keyed.ages.spare));
      kept = keyed.list.kept + (keyed.index.kept + keyed.ages.kept);
    } };

    ghost invariant = { λ keyed.
        IsKeyed T.marks_of keyed.list.items keyed.index.keys keyed.ages.keys
        × All (λ numbered. numbered.number < keyed.next) keyed.list.items
        × HasPlaces (length keyed.list.items + keyed.list.spare)
        (length keyed.index.keys + keyed.index.spare)
        (length keyed.ages.keys + keyed.ages.spare) };
}

impl<T: Keyed> KeyedList<T> {
    /// An empty list, with no room. Takes no memory.
    pub fn new(alloc: Global) -> Self
        ensures items { result.items ≡ [] }
        ensures room { result.room ≡ 0 }
        ensures places { result.places ≡ 0 }
    {
        KeyedList {
            list: NamedList::new(alloc),
            index: OrderedSet::new(alloc),
            ages: OrderedSet::new(alloc),
            next: 0,
        }
    }

    /// Makes room for `n` further items, with those that there is room for already. There is none
    /// past 2^30 items, nor past 2^64 - 1 that have come.
    pub fn reserve(&mut self, n: u32) -> Result<(), NoMemory>
        ensures items { self.new.items ≡ self.old.items }
        ensures room { self.old.room ≤ self.new.room }
        ensures at_most { self.new.room ≤ max self.old.room n }
        ensures places { self.new.places ≤ max self.old.places (2 * (length self.old.items + n)) }
        ensures ok { OnOk result (n ≤ self.new.room) }
        ensures enough { n ≤ self.old.room → IsOk result }
    {
        if n <= self.room() {
            return Ok(());
        }
        let len = self.list.len() as u32;
        if n > MOST_ITEMS - len || u64::from(n) > u64::MAX - self.next {
            return Err(NoMemory);
        }
        let all = len + n;
        self.index.reserve(2 * all - self.index.len() as u32)?;
        self.ages.reserve(all - self.ages.len() as u32)?;
        self.list.reserve(n)
    }

    /// For how many more items there is room.
    pub fn room(&self) -> u32
        ensures { result ≡ self.now.room }
    {
        (u64::MAX - self.next).min(u64::from(self.list.spare())) as u32
    }

    /// The number of items.
    pub fn len(&self) -> usize
        ensures len { result ≡ length self.now.items }
        ensures few { result + self.now.room ≤ most_items }
        ensures tied { 2 * (result + self.now.room) ≤ self.now.places }
        ensures kept { self.now.kept ≤ 4 * self.now.places + 2 * self.now.places / ring_names }
    {
        // The calls of `len` bring the facts of how much is kept.
        let _ = (self.index.len(), self.ages.len());
        self.list.len()
    }

    /// The item at a place, the oldest at 0, or None behind the end.
    pub fn get(&self, index: usize) -> Option<&T>
        ensures { option_copied result ≡ slice_get self.now.items index }
    {
        match self.list.get(index) {
            None => None,
            Some(numbered) => Some(&numbered.item),
        }
    }

    /// The place of an item that isn't younger than `life` at a moment, or None where there is
    /// none.
    pub fn old(&self, now: u64, life: u64) -> Option<usize>
        ensures old { IfSome result (λ place. IfSome (slice_get self.now.items place)
            (λ item. is_young T.marks_of now life item ≡ false)) }
        ensures within { IfSome result (λ place. place < length self.now.items) }
        ensures none { is_some result ≡ false
            → list_all (is_young T.marks_of now life) self.now.items ≡ true }
    {
        old_place(now, life, &self.list, &self.index, &self.ages)
    }

    /// The place of the last item that has a key, or None.
    pub fn place(&self, key: &Key) -> Option<usize>
        ensures last { item_at self.now.items result
            ≡ last_where (is_key T.marks_of key.now) self.now.items }
        ensures within { IfSome result (λ place. place < length self.now.items) }
    {
        place_last(key, &self.list, &self.index)
    }

    /// The last item that has a key and passes a test, or None.
    pub fn last<F: Fn(&T) -> bool>(&self, key: &Key, test: F) -> Option<&T>
        requires { F.IsAlwaysCallable test }
        ensures { (passes : T → Bool)
            → ((item : T) (told : Bool) → FnReturnsAt F.Fn test item told → told ≡ passes item)
            → option_copied result
            ≡ last_where (λ item. is_key T.marks_of key.now item && passes item) self.now.items }
    {
        let mut next = place_last(key, &self.list, &self.index);
        while let Some(place) = next {
            let Some(numbered) = self.list.get(place) else {
                unreachable!()
            };
            if test(&numbered.item) {
                return Some(&numbered.item);
            }
            next = place_before(key, place, &self.list);
        }
        None
    }

    /// The greatest moment of the items that have a key, or None where none has it.
    pub fn latest(&self, key: &Key) -> Option<u64>
        ensures { result ≡ latest T.marks_of key.now self.now.items }
    {
        let mut best = None;
        let mut next = place_last(key, &self.list, &self.index);
        while let Some(place) = next {
            let Some(numbered) = self.list.get(place) else {
                unreachable!()
            };
            best = later(best, &numbered.item);
            next = place_before(key, place, &self.list);
        }
        best
    }

    /// The place of the last item that has the first key of the item at a place.
    pub fn last_like(&self, place: usize) -> usize
        requires { place < length self.now.items }
        ensures last { IfSome (slice_get self.now.items place)
            (λ item. slice_get self.now.items result
            ≡ last_where (is_key T.marks_of (T.marks_of item).key) self.now.items) }
        ensures within { result < length self.now.items }
    {
        place_last_like(place, &self.list)
    }

    /// How many items are younger than `life` at a moment, found by halving.
    pub fn count(&self, now: u64, life: u64) -> usize
        ensures { result ≡ count_by (is_young T.marks_of now life) self.now.items }
    {
        count_young(now, life, &self.list, &self.index, &self.ages)
    }

    /// Adds an item at the end. Takes no memory.
    pub fn push(&mut self, item: T)
        requires { 0 < self.old.room }
        ensures items { self.new.items ≡ self.old.items ++ item ∷ [] }
        ensures room { self.new.room + 1 ≡ self.old.room }
        ensures places { self.new.places ≡ self.old.places }
    {
        // The calls of `len` bring the facts that keys and ages ascend, and so that there are no
        // more than those of the items.
        let _ = (self.index.len(), self.ages.len());
        let marks = item.marks();
        let number = self.next;
        let (before, other_before) = put_marks(&marks, number, &mut self.index);
        add_age(&marks, number, &mut self.ages);
        put(item, &marks, number, before, other_before, &mut self.list);
        self.next += 1;
    }

    /// Adds an item at the end, and changes the earlier ones that have its second key by `change`,
    /// which keeps an item's keys and moment. Takes no memory.
    pub fn push_changing<F: Fn(&T) -> T>(&mut self, item: T, change: F)
        requires room { 0 < self.old.room }
        requires callable { F.IsAlwaysCallable change }
        requires marks { (item new : T) → FnReturnsAt F.Fn change item new
            → T.marks_of new ≡ T.marks_of item }
        ensures items { (changed : T → T)
            → ((item new : T) → FnReturnsAt F.Fn change item new → new ≡ changed item)
            → self.new.items ≡ map (changed_like T.marks_of (T.marks_of item).other changed)
            self.old.items ++ item ∷ [] }
        ensures room { self.new.room + 1 ≡ self.old.room }
        ensures places { self.new.places ≡ self.old.places }
    {
        // The calls of `len` bring the facts that keys and ages ascend, and so that there are no
        // more than those of the items.
        let _ = (self.index.len(), self.ages.len());
        let marks = item.marks();
        let number = self.next;
        let (before, other_before) = put_marks(&marks, number, &mut self.index);
        add_age(&marks, number, &mut self.ages);
        change_like(&marks.other, other_before, change, &mut self.list);
        put(item, &marks, number, before, other_before, &mut self.list);
        self.next += 1;
    }

    /// Removes the items that aren't younger than `life` at a moment.
    pub fn purge(&mut self, now: u64, life: u64)
        ensures items { self.new.items ≡ filter (is_young T.marks_of now life) self.old.items }
        ensures room { self.old.room ≤ self.new.room }
        ensures total { length self.new.items + self.new.room
            ≤ length self.old.items + self.old.room }
        ensures places { self.new.places ≡ self.old.places }
    {
        while let Some(place) = old_place(now, life, &self.list, &self.index, &self.ages) {
            self.remove(place);
        }
    }

    /// Changes each item that has a key by `change`, which keeps an item's keys and moment.
    pub fn change<F: Fn(&T) -> T>(&mut self, key: &Key, change: F)
        requires callable { F.IsAlwaysCallable change }
        requires marks { (item new : T) → FnReturnsAt F.Fn change item new
            → T.marks_of new ≡ T.marks_of item }
        ensures items { (changed : T → T)
            → ((item new : T) → FnReturnsAt F.Fn change item new → new ≡ changed item)
            → self.new.items ≡ map (changed_with T.marks_of key.now changed) self.old.items }
        ensures room { self.new.room ≡ self.old.room }
        ensures places { self.new.places ≡ self.old.places }
    {
        let last = place_last(key, &self.list, &self.index);
        change_from(key, last, change, &mut self.list);
    }

    /// Removes the item at a place, and returns it.
    pub fn remove(&mut self, place: usize) -> T
        requires { place < length self.old.items }
        ensures item { slice_get self.old.items place ≡ Some result }
        ensures items { self.new.items ≡ remove self.old.items place }
        ensures room { self.old.room ≤ self.new.room }
        ensures total { length self.new.items + self.new.room
            ≤ length self.old.items + self.old.room }
        ensures places { self.new.places ≡ self.old.places }
    {
        unlink(place, &mut self.list, &mut self.index);
        let Numbered { number, item, .. } = self.list.remove(place);
        drop_age(&item.marks(), number, &mut self.ages);
        item
    }
}

impl<T: Keyed + Copy> KeyedList<T> {
    /// An equal list of its own, with as much room.
    pub fn copy(&self) -> Result<Self, NoMemory>
        ensures { IfOk result (λ copy. copy ≡ self.now) }
    {
        let list = self.list.copy(|numbered| Ok(copied(numbered)))?;
        let index = self.index.copy()?;
        let ages = self.ages.copy()?;
        Ok(KeyedList {
            list,
            index,
            ages,
            next: self.next,
        })
    }
}
