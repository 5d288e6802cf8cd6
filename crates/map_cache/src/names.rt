// The addresses that mappings name, each with the EIDs that name it, in a set.
ghost use Rattle.std.specs.Prelude.{◌≡◌, ◌≤◌, ◌<◌, ◌+◌, ◌*◌, ◌/◌, ◌&&◌, ◌||◌, ℕ, not, [], ◌∷◌, Some, true, false, length, max, slice_get, IfOk, IsOk, OnOk};
ghost use Rattle.std.specs.List.{list_any};
ghost use Rattle.std.specs.Option.{option_copied};
ghost use Rattle.named_list.specs.Limits.{ring_names};
ghost use Rattle.ordered_set.specs.Keys.{Ascends, has};
ghost use Rattle.map_cache.specs.Cache.{lasting};
ghost use Rattle.map_cache.specs.Indexed.{name_order, names_as, names_by};
ghost use Rattle.map_cache.specs.Limits.{most_locators, most_mappings};
ghost use Rattle.map_cache.specs.Lists.{AllFew};
ghost use Rattle.map_cache.specs.Named.{comes_after, least_named, named_above};
ghost use Rattle.map_cache.specs.declared.keys.Name.{Name};

use crate::by_eid::ByEid;
use crate::keys::Name;
use crate::{MOST_LOCATORS, Mapping, NoMemory, Reads};
use ip_headers::{Addr, is_below};
use mapping_records::{Eid, Locator};
use ordered_set::OrderedSet;
use std::alloc::Global;
use std::marker::Model;

/// The addresses that mappings name by a locator with a priority other than 255, each with the EIDs
/// that name it. They are kept once that is asked for.
#[derive(Drop)]
pub(crate) struct Names {
    // With room for as many locators of each mapping as it may have.
    set: OrderedSet<Name>,
    // Where not, the set is empty and has no room.
    begun: bool,
}

impl Model for Names {
    ghost use Rattle.std.specs.Prelude.{◌≡◌, ◌+◌, ◌*◌, ◌/◌, false, length};
    ghost use Rattle.map_cache.specs.Indexed.{Naming};
    ghost use Rattle.map_cache.specs.Limits.{most_locators};

    ghost Value = { Naming };

    ghost view = { λ names. record {
      begun = names.begun;
      keys = names.set.keys;
      places = (length names.set.keys + names.set.spare) / most_locators;
      kept = names.set.kept;
    } };

    ghost invariant = { λ names.
        (names.begun ≡ false → length names.set.keys + names.set.spare ≡ 0)
        × (most_locators * ((length names.set.keys + names.set.spare) / most_locators)
        ≡ length names.set.keys + names.set.spare) };
}

impl Names {
    /// None, which aren't kept. Takes no memory.
    pub(crate) fn new(alloc: Global) -> Names
        ensures begun { result.begun ≡ false }
        ensures places { result.places ≡ 0 }
    {
        Names {
            set: OrderedSet::new(alloc),
            begun: false,
        }
    }

    /// None, which are kept, with room for those of `n` mappings.
    fn with_room(alloc: Global, n: u32) -> Result<Names, NoMemory>
        requires { n ≤ 2 * most_mappings }
        ensures begun { IfOk result (λ names. names.begun ≡ true) }
        ensures keys { IfOk result (λ names. names.keys ≡ []) }
        ensures places { IfOk result (λ names. names.places ≡ n) }
    {
        let mut set = OrderedSet::new(alloc);
        set.reserve(MOST_LOCATORS as u32 * n)?;
        Ok(Names { set, begun: true })
    }

    /// The same of their own, with as much room.
    pub(crate) fn copy(&self) -> Result<Names, NoMemory>
        ensures { IfOk result (λ copy. copy ≡ self.now) }
    {
        let set = self.set.copy()?;
        Ok(Names {
            set,
            begun: self.begun,
        })
    }

    /// They are kept.
    pub(crate) fn is_begun(&self) -> bool
        ensures begun { result ≡ self.now.begun }
        ensures none { result ≡ false → self.now.places ≡ 0 }
    {
        self.begun
    }

    /// How many there are.
    pub(crate) fn len(&self) -> usize
        ensures len { result ≡ length self.now.keys }
        ensures ascends { Ascends name_order self.now.keys }
        ensures kept { self.now.kept ≡ 2 * (most_locators * self.now.places)
            + most_locators * self.now.places / ring_names }
    {
        self.set.len()
    }

    /// Makes room for the names of `n` mappings in all, where names are kept.
    pub(crate) fn reserve(&mut self, n: u32) -> Result<(), NoMemory>
        requires n { n ≤ 2 * most_mappings }
        requires few { self.old.begun ≡ true → length self.old.keys ≤ most_locators * n }
        ensures begun { self.new.begun ≡ self.old.begun }
        ensures keys { self.new.keys ≡ self.old.keys }
        ensures places { self.old.places ≤ self.new.places }
        ensures at_most { self.new.places ≤ max self.old.places n }
        ensures ok { self.old.begun ≡ true → OnOk result (n ≤ self.new.places) }
        ensures enough { (self.old.begun ≡ true → n ≤ self.old.places) → IsOk result }
    {
        if !self.begun {
            return Ok(());
        }
        let all = MOST_LOCATORS as u32 * n;
        self.set.reserve(all - self.set.len() as u32)
    }

    /// Puts in what a mapping names, where names are kept. Takes no memory.
    pub(crate) fn add(&mut self, mapping: &Mapping)
        requires { self.old.begun ≡ true
            → length self.old.keys + length mapping.now.details.locators
            ≤ most_locators * self.old.places }
        ensures begun { self.new.begun ≡ self.old.begun }
        ensures places { self.new.places ≡ self.old.places }
        ensures members { self.old.begun ≡ true → (key : Name)
            → has name_order key self.new.keys
            ≡ (names_as key mapping.now || has name_order key self.old.keys) }
        ensures len { length self.new.keys
            ≤ length self.old.keys + length mapping.now.details.locators }
    {
        if self.begun {
            add_names(
                &mapping.eid,
                mapping.details.locators.as_slice(),
                &mut self.set,
            );
        }
    }

    /// Takes out what a mapping names, where names are kept. Takes no memory.
    pub(crate) fn remove(&mut self, mapping: &Mapping)
        ensures begun { self.new.begun ≡ self.old.begun }
        ensures places { self.new.places ≡ self.old.places }
        ensures members { self.old.begun ≡ true → (key : Name)
            → has name_order key self.new.keys
            ≡ (not (names_as key mapping.now) && has name_order key self.old.keys) }
    {
        if self.begun {
            drop_names(
                &mapping.eid,
                mapping.details.locators.as_slice(),
                &mut self.set,
            );
        }
    }

    /// The least address above `after` that a mapping names which hasn't ended at a moment, and the
    /// least such EID, where the names are those of the mappings.
    pub(crate) fn least(&self, m: u64, after: Option<&Addr>, by_eid: &ByEid) -> Option<(Addr, Eid)>
        requires { (key : Name) → has name_order key self.now.keys
            ≡ list_any (names_as key) by_eid.now.mappings }
        ensures { result ≡ least_named
            (named_above (option_copied after.entry) (lasting m by_eid.now.mappings)) }
    {
        least_in(m, after, &self.set, by_eid)
    }
}

/// The names of mappings, with room for those of so many in all.
pub(crate) fn names_of(alloc: Global, by_eid: &ByEid, places: u32) -> Result<Names, NoMemory>
    requires places { length by_eid.now.mappings ≤ places }
    requires most { places ≤ 2 * most_mappings }
    requires few { AllFew by_eid.now.mappings }
    ensures begun { IfOk result (λ names. names.begun ≡ true) }
    ensures places { IfOk result (λ names. names.places ≡ places) }
    ensures keys { IfOk result (λ names. (key : Name) → has name_order key names.keys
        ≡ list_any (names_as key) by_eid.now.mappings) }
{
    let mut names = Names::with_room(alloc, places)?;
    for mapping in by_eid.iter() {
        names.add(mapping);
    }
    Ok(names)
}

fn add_names(eid: &Eid, locators: &[Locator], set: &mut OrderedSet<Name>)
    requires { length locators.now ≤ set.old.spare }
    ensures members { (key : Name) → has name_order key set.new.keys
        ≡ (list_any (names_by key eid.now) locators.now || has name_order key set.old.keys) }
    ensures total { length set.new.keys + set.new.spare ≡ length set.old.keys + set.old.spare }
    ensures len { length set.new.keys ≤ length set.old.keys + length locators.now }
{
    let [locator, others @ ..] = locators else {
        return;
    };
    add_name(eid, locator, set);
    add_names(eid, others, set);
}

fn add_name(eid: &Eid, locator: &Locator, set: &mut OrderedSet<Name>)
    requires { 0 < set.old.spare }
    ensures members { (key : Name) → has name_order key set.new.keys
        ≡ (names_by key eid.now locator.now || has name_order key set.old.keys) }
    ensures total { length set.new.keys + set.new.spare ≡ length set.old.keys + set.old.spare }
    ensures len { length set.new.keys ≤ length set.old.keys + 1 }
{
    if locator.priority != 255 {
        set.insert(Name {
            addr: locator.addr,
            eid: *eid,
        });
    }
}

fn drop_names(eid: &Eid, locators: &[Locator], set: &mut OrderedSet<Name>)
    ensures members { (key : Name) → has name_order key set.new.keys
        ≡ (not (list_any (names_by key eid.now) locators.now) && has name_order key set.old.keys) }
    ensures total { length set.new.keys + set.new.spare ≡ length set.old.keys + set.old.spare }
{
    let [locator, others @ ..] = locators else {
        return;
    };
    drop_name(eid, locator, set);
    drop_names(eid, others, set);
}

fn drop_name(eid: &Eid, locator: &Locator, set: &mut OrderedSet<Name>)
    ensures members { (key : Name) → has name_order key set.new.keys
        ≡ (not (names_by key eid.now locator.now) && has name_order key set.old.keys) }
    ensures total { length set.new.keys + set.new.spare ≡ length set.old.keys + set.old.spare }
{
    if locator.priority != 255 {
        set.remove(&Name {
            addr: locator.addr,
            eid: *eid,
        });
    }
}

// The place of the first name of an address above another.
fn place_behind(after: &Addr, set: &OrderedSet<Name>) -> usize
    ensures within { result ≤ length set.now.keys }
    ensures upto { (k : ℕ) (name : Name) → k < result → slice_get set.now.keys k ≡ Some name
        → comes_after (Some after.now) name.addr ≡ false }
    ensures above { (k : ℕ) (name : Name) → result ≤ k → slice_get set.now.keys k ≡ Some name
        → comes_after (Some after.now) name.addr ≡ true }
{
    // The length says that keys are in order.
    let _ = set.len();
    set.place(|name| is_upto(after, name))
}

fn is_upto(after: &Addr, name: &Name) -> bool
    ensures { result ≡ not (comes_after (Some after.now) name.now.addr) }
{
    !is_below(after, &name.addr)
}

// The same; without another address, the first of all.
fn place_above(after: Option<&Addr>, set: &OrderedSet<Name>) -> usize
    ensures within { result ≤ length set.now.keys }
    ensures upto { (k : ℕ) (name : Name) → k < result → slice_get set.now.keys k ≡ Some name
        → comes_after (option_copied after.entry) name.addr ≡ false }
    ensures above { (k : ℕ) (name : Name) → result ≤ k → slice_get set.now.keys k ≡ Some name
        → comes_after (option_copied after.entry) name.addr ≡ true }
{
    match after {
        None => 0,
        Some(after) => place_behind(after, set),
    }
}

// The first name above `after` whose mapping hasn't ended at a moment.
fn least_in(
    m: u64,
    after: Option<&Addr>,
    set: &OrderedSet<Name>,
    by_eid: &ByEid,
) -> Option<(Addr, Eid)>
    requires { (key : Name) → has name_order key set.now.keys
        ≡ list_any (names_as key) by_eid.now.mappings }
    ensures { result ≡ least_named
        (named_above (option_copied after.entry) (lasting m by_eid.now.mappings)) }
{
    // The lengths say that names and mappings are in order.
    let _ = (set.len(), by_eid.len());
    let mut index = place_above(after, set);
    while let Some(name) = set.get(index) {
        if by_eid.lasts(m, &name.eid) {
            return Some((name.addr, name.eid));
        }
        index += 1;
    }
    None
}
