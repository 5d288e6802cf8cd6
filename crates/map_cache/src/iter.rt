// An iterator over mappings.
ghost use Rattle.std.specs.Prelude.{◌≡◌, All};
ghost use Rattle.std.specs.Iterator.{YieldsFirstRef, item_count};
ghost use Rattle.map_cache.specs.Filed.{mappings_at, IsNamed};

use crate::Mapping;
use crate::stay::Stay;
use node_store::{NodeStore, Reads};
use std::marker::Model;

/// An iterator over mappings in order of EID; contracts see those that it hasn't returned. Takes no
/// memory.
#[derive(Drop)]
pub struct Iter<'a> {
    store: &'a NodeStore<Mapping>,
    stays: prefix_table::Iter<'a, Stay>,
}

impl<'a> Model for Iter<'a> {
    ghost use Rattle.std.specs.Prelude.{List, All};
    ghost use Rattle.map_cache.specs.Filed.{mappings_at, IsNamed};
    ghost use Rattle.map_cache.specs.declared.mapping.Mapping.{Mapping};

    ghost Value = { List Mapping };

    ghost view = { λ it. mappings_at it.store.now it.stays };

    ghost invariant = { λ it. All (IsNamed it.store.now) it.stays };
}

impl<'a> Iter<'a> {
    /// The iterator over the mappings in `store` whose names `stays` returns.
    pub(crate) fn new(store: &'a NodeStore<Mapping>, stays: prefix_table::Iter<'a, Stay>) -> Self
        requires { All (IsNamed store.now) stays }
        ensures { result ≡ mappings_at store.now stays.entry }
    {
        Iter { store, stays }
    }
}

impl<'a> Iterator for Iter<'a> {
    type Item = &'a Mapping;

    ghost next_gives = { YieldsFirstRef (λ rest. rest) };

    ghost remaining = { item_count (λ rest. rest) };

    fn next(&mut self) -> Option<&'a Mapping> {
        let (_, stay) = self.stays.next()?;
        Some(self.store.read(stay.name, &mut Reads::new()))
    }
}
