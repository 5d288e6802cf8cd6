// Nodes, of which a way down reads little, and their contents beside them.
ghost use Rattle.std.specs.Prelude.{Bool, ◌≡◌, ◌+◌, ◌^◌, ◌<◌, ◌≤◌, [], max, length, OnOk, OnErr, Some, None, IfOk, IfSome, IsOk};
ghost use Rattle.std.specs.Fn.{FnReturnsAt};
ghost use Rattle.node_store.specs.Copies.{MakesCopies};
ghost use Rattle.node_store.specs.Store.{node_at, IsLive, live, SameNodes, Changes};
ghost use Rattle.prefix_table.specs.Keys.{key_of};
ghost use Rattle.prefix_table.specs.Nodes.{node_with, IsWayOf, IsContentOf};
ghost use Rattle.prefix_table.specs.Sides.{on_side};

use crate::content::{Content, add_contents, copied_contents, fill};
use crate::node::{Node, Sides, Way, link_to, linked};
use node_store::{NoMemory, NodeStore, Reads};
use std::alloc::Global;
use std::marker::Model;

/// Nodes, each under a name: the ways close together, the contents in a list of their own.
#[derive(Drop)]
pub(crate) struct Nodes<V> {
    pub(crate) ways: NodeStore<Way>,
    // The content of the node of each name. A name without a node has one without a value.
    pub(crate) contents: Vec<Content<V>>,
}

/// A node as it is read: its content, and the names of the nodes below it.
pub(crate) struct NodeRef<'a, V> {
    pub(crate) content: &'a Content<V>,
    pub(crate) next: Sides<Option<u32>>,
}

impl<V> Model for Nodes<V> {
    ghost use Rattle.node_store.specs.Store.{Store};
    ghost use Rattle.prefix_table.specs.Nodes.{whole, IsWhole};
    ghost use Rattle.prefix_table.specs.declared.node.Node.{Node};

    ghost Value = { Store (Node V) };

    ghost view = { λ nodes. whole nodes.ways nodes.contents.items };

    ghost invariant = { λ nodes. IsWhole nodes.ways nodes.contents.items };
}

impl<V> Nodes<V> {
    /// A store without nodes and without room. Takes no memory.
    pub(crate) fn new(alloc: Global) -> Self
        ensures empty { result.slots ≡ [] }
        ensures rooms { result.rooms ≡ 0 }
    {
        Nodes {
            ways: NodeStore::new(alloc),
            contents: Vec::new(alloc),
        }
    }

    /// Makes room for `n` further nodes, with those that there is room for already.
    pub(crate) fn make_room(&mut self, n: u32) -> Result<(), NoMemory>
        requires { live self.old + n < 2 ^ 32 }
        ensures nodes { SameNodes self.old self.new }
        ensures ok { OnOk result (self.new.rooms ≡ max self.old.rooms n) }
        ensures enough { n ≤ self.old.rooms → IsOk result }
        ensures slots { length self.new.slots ≡ live self.old + self.new.rooms }
        ensures err { OnErr result (self.new ≡ self.old) }
    {
        let rooms = self.ways.rooms();
        if n <= rooms {
            return Ok(());
        }
        self.contents.reserve((n - rooms) as usize)?;
        self.ways.make_room(n)?;
        let all = self.contents.len() + (n - rooms) as usize;
        add_contents(&mut self.contents, all);
        Ok(())
    }

    /// For how many further nodes there is room.
    pub(crate) fn rooms(&self) -> u32
        ensures rooms { result ≡ self.now.rooms }
        ensures slots { length self.now.slots ≡ live self.now + result }
    {
        self.ways.rooms()
    }

    /// What a way down reads of the node of that name. The count of reads rises by one.
    pub(crate) fn way(&self, name: u32, reads: &mut Reads) -> Way
        requires live { IsLive self.now name }
        requires counts { reads.old + 1 < 2 ^ 64 }
        ensures node { (top : _) → node_at self.now name ≡ Some top → IsWayOf top result }
        ensures count { reads.new ≡ reads.old + 1 }
    {
        *self.ways.read(name, reads)
    }

    /// The content of the node of that name.
    pub(crate) fn content(&self, name: u32) -> &Content<V>
        requires { IsLive self.now name }
        ensures node { (top : _) → node_at self.now name ≡ Some top → IsContentOf top result.now }
        ensures key { result.now.key ≡ key_of result.now.eid }
    {
        &self.contents[name as usize]
    }

    /// The node of that name. The count of reads rises by one.
    pub(crate) fn read(&self, name: u32, reads: &mut Reads) -> NodeRef<'_, V>
        requires live { IsLive self.now name }
        requires counts { reads.old + 1 < 2 ^ 64 }
        ensures node { node_at self.now name
            ≡ Some (node_with result.content.now result.next) }
        ensures key { result.content.now.key ≡ key_of result.content.now.eid }
        ensures count { reads.new ≡ reads.old + 1 }
    {
        let way = self.way(name, reads);
        NodeRef {
            content: self.content(name),
            next: Sides {
                zero: linked(way.next.zero),
                one: linked(way.next.one),
            },
        }
    }

    /// Puts a node under a name that had none, and returns the name. Takes no memory.
    pub(crate) fn put(&mut self, node: Node<V>) -> u32
        requires rooms { 0 < self.old.rooms }
        requires next { (side : Bool) → IfSome (on_side side node.next) (IsLive self.old) }
        ensures fresh { node_at self.old result ≡ None }
        ensures changes { Changes self.old self.new result (Some node) }
        ensures rooms { self.new.rooms + 1 ≡ self.old.rooms }
        ensures slots { length self.new.slots ≡ length self.old.slots }
    {
        let name = self.ways.put(Way {
            next: Sides {
                zero: link_to(node.next.zero),
                one: link_to(node.next.one),
            },
            len: node.eid.prefix.len,
            valued: node.value.is_some(),
        });
        fill(&mut self.contents[name as usize], node.eid, node.value);
        name
    }
}

impl<V: Drop> Nodes<V> {
    /// An equal store of its own, with the same names and with as much room. `each` makes the copy
    /// of a value.
    pub(crate) fn copy<F: Fn(&V) -> Result<V, NoMemory>>(&self, each: F) -> Result<Self, NoMemory>
        requires callable { F.IsAlwaysCallable each }
        requires copies { MakesCopies (FnReturnsAt F.Fn each) }
        ensures { IfOk result (λ copy. copy ≡ self.now) }
    {
        let ways = self.ways.copy(|way| Ok(*way), &mut Reads::new())?;
        let contents = copied_contents(&self.contents, &each)?;
        Ok(Nodes { ways, contents })
    }
}
