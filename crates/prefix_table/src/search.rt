// Look-ups: down from a root, one read for each node.
ghost use Rattle.std.specs.Prelude.{◌≡◌, ◌≤◌, ◌+◌, ◌^◌, ◌<◌, ◌%◌, ◌==◌, IsTrue, IsSome, All, MatchOption, Some, None};
ghost use Rattle.std.specs.Fn.{FnReturnsAt};
ghost use Rattle.std.specs.Option.{option_map};
ghost use Rattle.ip_headers.specs.Addr.{first_bits, width};
ghost use Rattle.prefix_table.specs.Keys.{key_of, key_width};
ghost use Rattle.prefix_table.specs.Limits.{most_nodes};
ghost use Rattle.prefix_table.specs.Nodes.{linked};
ghost use Rattle.prefix_table.specs.Sides.{on_side};
ghost use Rattle.prefix_table.specs.Tree.{pairs};
ghost use Rattle.prefix_table.specs.Longest.{IsRefused, IsLongestWhere, After, seen};
ghost use Rattle.prefix_table.specs.Spelled.{tree_of, IsRoot};

use crate::key::Key;
use crate::node::{Way, linked};
use crate::nodes::Nodes;
use mapping_records::{Addr, Eid};
use node_store::Reads;

/// The bit of an address behind its first `len` bits.
pub(crate) fn next_bit(addr: Addr, len: u8) -> bool
    requires { len < width addr }
    ensures { result ≡ (first_bits addr (len + 1) % 2 == 1) }
{
    match addr {
        Addr::V4(n) => (n >> (31 - len)) % 2 == 1,
        Addr::V6(n) => (n >> (127 - len)) % 2 == 1,
    }
}

// The best pair after a look at a node: the node's, where its value passes the test, else the best
// before.
fn better<'a, V, F: Fn(&V) -> bool>(
    eid: &'a Eid,
    value: &'a Option<V>,
    test: &F,
    best: Option<(&'a Eid, &'a V)>,
) -> Option<(&'a Eid, &'a V)>
    requires { F.IsAlwaysCallable test.now }
    ensures { After (FnReturnsAt F.Fn test.now) (option_map seen best.entry)
        eid.now value.now (option_map seen result) }
{
    let Some(value) = value else {
        return best;
    };
    if test(value) {
        return Some((eid, value));
    }
    best
}

// The name of the node below on the side of the next bit of what is sought, or None.
fn below(way: &Way, sought: &Key) -> Option<u32>
    requires len { way.now.len < sought.now.width }
    requires width { sought.now.width ≤ 128 }
    ensures { (eid : _) → sought.now ≡ key_of eid → result
        ≡ linked (on_side (first_bits eid.prefix.addr (way.now.len + 1) % 2 == 1) way.now.next) }
{
    linked(way.next.on(sought.next_bit(way.len)))
}

/// The longest pair of the trie that covers the EID and passes the test, or None. Each node on the
/// way down is read once. The key of a node without a value isn't compared: a way that went astray
/// there ends at the next node with a value, because its key doesn't begin what is sought.
pub(crate) fn longest_where<'a, V, F: Fn(&V) -> bool>(
    store: &'a Nodes<V>,
    root: u32,
    eid: &Eid,
    test: F,
    reads: &mut Reads,
) -> Option<(&'a Eid, &'a V)>
    requires callable { F.IsAlwaysCallable test }
    requires root { IsRoot store.now (Some root) eid.now.iid (key_width eid.now) }
    requires counts { reads.old < 2 ^ 63 }
    ensures longest { MatchOption result
        (All (IsRefused (FnReturnsAt F.Fn test) eid.now) (pairs (tree_of store.now (Some root))))
        (λ found. IsLongestWhere (FnReturnsAt F.Fn test) eid.now
        (pairs (tree_of store.now (Some root))) (seen found)) }
    ensures counted { reads.old ≤ reads.new }
    ensures reads { reads.new ≤ reads.old + most_nodes }
{
    let sought = Key::of(eid);
    let mut at = root;
    let mut best: Option<(&'a Eid, &'a V)> = None;
    loop {
        let way = store.way(at, reads);
        if way.valued {
            let content = store.content(at);
            if !content.key.begins(&sought) {
                return best;
            }
            best = better(&content.eid, &content.value, &test, best);
        }
        if way.len >= sought.len {
            return best;
        }
        let Some(name) = below(&way, &sought) else {
            return best;
        };
        at = name;
    }
}
