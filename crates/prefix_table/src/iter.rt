// An iterator over pairs.
ghost use Rattle.std.specs.Prelude.{◌≡◌, ◌∷◌, [], All, MatchOption};
ghost use Rattle.std.specs.Iterator.{YieldsFirstBy, item_count};
ghost use Rattle.prefix_table.specs.Longest.{seen};
ghost use Rattle.prefix_table.specs.Stacked.{stacked, AreUnder};
ghost use Rattle.prefix_table.specs.Table.{pairs_under, IsRootIn};

use crate::node::Root;
use crate::nodes::{NodeRef, Nodes};
use crate::stack::Stack;
use mapping_records::Eid;
use node_store::Reads;
use std::marker::Model;

/// An iterator over the pairs of a table, in ascending order of the EIDs; contracts see those that
/// it hasn't returned. Takes no memory.
#[derive(Drop)]
pub struct Iter<'a, V> {
    store: &'a Nodes<V>,
    // The first pairs are under these names, those under the last name first.
    stack: Stack,
    // The other pairs are under these roots.
    roots: &'a [Root],
}

impl<'a, V> Model for Iter<'a, V> {
    ghost use Rattle.std.specs.Prelude.{◌++◌, List, All};
    ghost use Rattle.mapping_records.specs.declared.eid.Eid.{Eid};
    ghost use Rattle.prefix_table.specs.Stacked.{stacked, AreUnder};
    ghost use Rattle.prefix_table.specs.Table.{pairs_under, IsRootIn};

    ghost Value = { List (Eid × V) };

    ghost view = { λ it. stacked it.store.now it.stack ++ pairs_under it.store.now it.roots.now };

    ghost invariant = { λ it. AreUnder it.store.now 0 it.stack
        × All (IsRootIn it.store.now) it.roots.now };
}

impl<'a, V> Iter<'a, V> {
    /// The iterator over the pairs under roots.
    pub(crate) fn new(store: &'a Nodes<V>, roots: &'a [Root]) -> Self
        requires { All (IsRootIn store.now) roots.now }
        ensures { result ≡ pairs_under store.now roots.now }
    {
        Iter {
            store,
            stack: Stack::new(),
            roots,
        }
    }
}

impl<'a, V> Iterator for Iter<'a, V> {
    type Item = (&'a Eid, &'a V);

    ghost next_gives = { YieldsFirstBy seen (λ rest. rest) };

    ghost remaining = { item_count (λ rest. rest) };

    fn next(&mut self) -> Option<(&'a Eid, &'a V)> {
        loop {
            if let Some(pair) = next_of(self.store, &mut self.stack) {
                return Some(pair);
            }
            let (root, others) = self.roots.split_first()?;
            self.roots = others;
            self.stack.push(Some(root.name));
        }
    }
}

// The first pair under the names of a stack, or None. The stack then has the names of the pairs
// behind it.
fn next_of<'a, V>(store: &'a Nodes<V>, stack: &mut Stack) -> Option<(&'a Eid, &'a V)>
    requires { AreUnder store.now 0 stack.old }
    ensures first { MatchOption result
        ((stacked store.now stack.old ≡ []) × (stack.new ≡ []))
        (λ found. stacked store.now stack.old ≡ seen found ∷ stacked store.now stack.new) }
    ensures under { AreUnder store.now 0 stack.new }
{
    let name = stack.pop()?;
    let NodeRef { content, next } = store.read(name, &mut Reads::new());
    stack.push(next.one);
    stack.push(next.zero);
    match &content.value {
        Some(value) => Some((&content.eid, value)),
        None => next_of(store, stack),
    }
}
