// The nodes of the tries, and their roots.
ghost use Rattle.std.specs.Prelude.{◌≡◌, ◌≢◌, not, Some};
ghost use Rattle.prefix_table.specs.Nodes.{linked, no_node};
ghost use Rattle.prefix_table.specs.Sides.{on_side, sides};

use mapping_records::Eid;

/// What a node has on its two sides, which the bit behind its length tells apart.
#[derive(Clone, Copy, Drop)]
pub(crate) struct Sides<T> {
    pub(crate) zero: T,
    pub(crate) one: T,
}

impl<T: Copy> Sides<T> {
    /// Both sides: `near` is on that one, and `far` on the other.
    pub(crate) fn new(side: bool, near: T, far: T) -> Sides<T>
        ensures { result ≡ sides side near far }
    {
        if side {
            return Sides {
                zero: far,
                one: near,
            };
        }
        Sides {
            zero: near,
            one: far,
        }
    }

    /// What is on that side. Both are read, so that there is no branch to predict.
    pub(crate) fn on(&self, side: bool) -> T
        ensures { result ≡ on_side side self.now }
    {
        let (zero, one) = (self.zero, self.one);
        if side { one } else { zero }
    }

    /// Sets what is on that side.
    pub(crate) fn set(&mut self, side: bool, item: T)
        ensures { self.new ≡ sides side item (on_side (not side) self.old) }
    {
        if side {
            self.one = item;
            return;
        }
        self.zero = item;
    }
}

/// A node of a trie. One without a value has nodes below it on both sides.
#[derive(Drop)]
pub(crate) struct Node<V> {
    pub(crate) eid: Eid,
    pub(crate) value: Option<V>,
    // The names of the nodes below it.
    pub(crate) next: Sides<Option<u32>>,
}

/// What a way down reads of a node: 12 octets, so that nodes lie close together.
#[derive(Clone, Copy, Drop)]
pub(crate) struct Way {
    // The links to the nodes below it.
    pub(crate) next: Sides<u32>,
    // The length of the node's EID.
    pub(crate) len: u8,
    pub(crate) valued: bool,
}

const _: () = prove!(std::mem::size_of::<Way>() == 12);

// The link on a side without a node: no node has this name.
const NO_NODE: u32 = u32::MAX;

/// The name of the node to which a link leads, or None.
pub(crate) fn linked(link: u32) -> Option<u32>
    ensures { result ≡ linked link }
{
    if link == NO_NODE {
        return None;
    }
    Some(link)
}

/// The link to the node of that name, or to none.
pub(crate) fn link_to(name: Option<u32>) -> u32
    requires { name ≢ Some no_node }
    ensures { linked result ≡ name }
{
    match name {
        Some(name) => name,
        None => NO_NODE,
    }
}

/// The root of the trie of an instance and family.
#[derive(Clone, Copy, Drop)]
pub(crate) struct Root {
    pub(crate) key: u64,
    pub(crate) name: u32,
}
