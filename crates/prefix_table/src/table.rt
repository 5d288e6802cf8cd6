// The table: a trie for each instance and family.
ghost use Rattle.std.specs.Prelude.{◌≡◌, ◌≤◌, ◌+◌, ◌*◌, ◌^◌, ◌<◌, [], ◌≢◌, length, All, Contains, MatchOption, option_copied, ◌-◌, None, is_some, max, OnOk, OnErr, IfOk, IsOk, if◌then◌else◌};
ghost use Rattle.std.specs.Fn.{FnReturnsAt};
ghost use Rattle.node_store.specs.Copies.{MakesCopies};
ghost use Rattle.prefix_table.specs.Limits.{most_nodes, most_pairs};
ghost use Rattle.prefix_table.specs.Pairs.{Ascends, with_pair, without_pair, value_in};
ghost use Rattle.prefix_table.specs.Table.{root_key};
ghost use Rattle.prefix_table.specs.Longest.{IsRefused, IsLongestWhere, seen};

use crate::node::Root;
use crate::nodes::Nodes;
use crate::rooted::{put, take};
use crate::roots::find_root;
use crate::{Iter, search};
use mapping_records::Eid;
use node_store::{NoMemory, Reads, copied};
use std::alloc::Global;
use std::marker::Model;

/// A table of pairs of EIDs and values, in ascending order of the EIDs.
#[derive(Drop)]
pub struct PrefixTable<V> {
    store: Nodes<V>,
    // The roots, in ascending order of their keys.
    roots: Vec<Root>,
    spare: u32,
    len: u32,
}

impl<V> Model for PrefixTable<V> {
    ghost use Rattle.std.specs.Prelude.{vec_capacity};
    ghost use Rattle.prefix_table.specs.Table.{Table, table_of, IsTable};

    ghost Value = { Table V };

    ghost view = { λ table. table_of table.store table.roots.items table.spare };

    ghost invariant = { λ table. IsTable table.store table.roots.items table.spare table.len
        (vec_capacity table.roots) };
}

fn root_key(eid: &Eid) -> u64
    ensures { result ≡ root_key eid.now }
{
    u64::from(eid.iid) * 256 + u64::from(eid.prefix.addr.width())
}

impl<V> PrefixTable<V> {
    /// An empty table, without room. Takes no memory.
    pub fn new(alloc: Global) -> Self
        ensures empty { result.pairs ≡ [] }
        ensures spare { result.spare ≡ 0 }
    {
        PrefixTable {
            store: Nodes::new(alloc),
            roots: Vec::new(alloc),
            spare: 0,
            len: 0,
        }
    }

    /// Makes room for `n` further EIDs, with those that there is room for already.
    pub fn reserve(&mut self, n: u32) -> Result<(), NoMemory>
        requires { length self.old.pairs + n ≤ most_pairs }
        ensures pairs { self.new.pairs ≡ self.old.pairs }
        ensures ok { OnOk result (self.new.spare ≡ max self.old.spare n) }
        ensures enough { n ≤ self.old.spare → IsOk result }
        ensures err { OnErr result (self.new.spare ≡ self.old.spare) }
    {
        if n <= self.spare {
            return Ok(());
        }
        let rooms = self.store.rooms();
        self.roots
            .reserve((self.len + n) as usize - self.roots.len())?;
        self.store.make_room(rooms + 2 * (n - self.spare))?;
        self.spare = n;
        Ok(())
    }

    /// The longest pair that has the EID's instance, covers the EID and passes the test, or None.
    /// Each node on the way down is read once.
    pub fn longest_where<F: Fn(&V) -> bool>(
        &self,
        eid: &Eid,
        test: F,
        reads: &mut Reads,
    ) -> Option<(&Eid, &V)>
        requires callable { F.IsAlwaysCallable test }
        requires counts { reads.old < 2 ^ 63 }
        ensures longest { MatchOption result
            (All (IsRefused (FnReturnsAt F.Fn test) eid.now) self.now.pairs)
            (λ found. IsLongestWhere (FnReturnsAt F.Fn test) eid.now self.now.pairs (seen found)) }
        ensures counted { reads.old ≤ reads.new }
        ensures reads { reads.new ≤ reads.old + most_nodes }
    {
        match find_root(&self.roots, root_key(eid)) {
            Ok(at) => {
                let root = self.roots[at];
                search::longest_where(&self.store, root.name, eid, test, reads)
            }
            Err(_) => None,
        }
    }

    /// The value of an EID, or None where the table doesn't have it.
    pub fn get(&self, eid: &Eid, reads: &mut Reads) -> Option<&V>
        requires { reads.old < 2 ^ 63 }
        ensures value { option_copied result ≡ value_in eid.now self.now.pairs }
        ensures counted { reads.old ≤ reads.new }
        ensures reads { reads.new ≤ reads.old + most_nodes }
    {
        // The fields are named, because the proof rests on the facts that are kept of them.
        let _ = &self.roots;
        match self.longest_where(eid, |_| true, reads) {
            Some((key, value)) => {
                if key.prefix.len == eid.prefix.len {
                    Some(value)
                } else {
                    None
                }
            }
            None => None,
        }
    }

    /// Adds a pair, or replaces the value of its EID, and returns the former value, or None. Takes
    /// no memory.
    pub fn insert(&mut self, eid: Eid, value: V) -> Option<V>
        requires { value_in eid self.old.pairs ≡ None → 0 < self.old.spare }
        ensures pairs { self.new.pairs ≡ with_pair eid value self.old.pairs }
        ensures was { result ≡ value_in eid self.old.pairs }
        ensures spare { self.new.spare ≡ self.old.spare - (if is_some result then 0 else 1) }
    {
        let key = root_key(&eid);
        let was = put(&mut self.store, &mut self.roots, key, eid, value);
        if was.is_none() {
            self.spare -= 1;
            self.len += 1;
        }
        was
    }

    /// Takes the pair of an EID out, and returns its value, or None where there is none. The pair's
    /// room is spare again. Takes no memory.
    pub fn remove(&mut self, eid: &Eid) -> Option<V>
        ensures pairs { self.new.pairs ≡ without_pair eid.now self.old.pairs }
        ensures was { result ≡ value_in eid.now self.old.pairs }
        ensures spare { self.new.spare ≡ self.old.spare + (if is_some result then 1 else 0) }
    {
        let was = take(&mut self.store, &mut self.roots, root_key(eid), *eid);
        if was.is_some() {
            self.spare += 1;
            self.len -= 1;
        }
        was
    }

    /// The pairs, in ascending order of the EIDs.
    pub fn iter(&self) -> Iter<'_, V>
        ensures { result ≡ self.now.pairs }
    {
        Iter::new(&self.store, &self.roots)
    }

    /// The number of pairs.
    pub fn len(&self) -> u32
        ensures len { result ≡ length self.now.pairs }
        ensures ascends { Ascends self.now.pairs }
        ensures kept { self.now.kept ≤ 7 * (result + self.now.spare) }
    {
        self.len
    }
}

impl<V: Drop> PrefixTable<V> {
    /// An equal table of its own, with as much room. `each` makes the copy of a value.
    pub fn copy<F: Fn(&V) -> Result<V, NoMemory>>(
        &self,
        each: F,
    ) -> Result<PrefixTable<V>, NoMemory>
        requires callable { F.IsAlwaysCallable each }
        requires copies { MakesCopies (FnReturnsAt F.Fn each) }
        ensures { IfOk result (λ copy. copy ≡ self.now) }
    {
        let store = self.store.copy(each)?;
        let roots = copied(&self.roots)?;
        Ok(PrefixTable {
            store,
            roots,
            spare: self.spare,
            len: self.len,
        })
    }
}
