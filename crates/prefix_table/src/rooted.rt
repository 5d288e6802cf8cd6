// Insertion and removal of a pair under the root of its instance and family.
ghost use Rattle.std.specs.Prelude.{◌≡◌, ◌≤◌, ◌<◌, None, vec_len, vec_capacity};
ghost use Rattle.ip_headers.specs.Addr.{first_bits};
ghost use Rattle.prefix_table.specs.Pairs.{with_pair, without_pair, value_in};
ghost use Rattle.prefix_table.specs.Roots.{IsAt, IsGapFor};
ghost use Rattle.prefix_table.specs.Table.{IsForest, pairs_under, root_key};
ghost use Rattle.prefix_table.specs.Under.{EditedUnder};

use crate::insert::put_below;
use crate::node::Root;
use crate::nodes::Nodes;
use crate::removal::take_below;
use crate::roots::find_root;
use mapping_records::{Addr, Eid};

// Brings the fact that an address has no bits above its width.
fn no_more_bits(addr: Addr)
    ensures { first_bits addr 0 ≡ 0 }
{
    match addr {
        Addr::V4(n) => {
            let _ = n;
        }
        Addr::V6(n) => {
            let _ = n;
        }
    }
}

/// Puts a pair under its root, which is made where there is none, and returns the former value.
pub(crate) fn put<V>(
    store: &mut Nodes<V>,
    roots: &mut Vec<Root>,
    key: u64,
    eid: Eid,
    value: V,
) -> Option<V>
    requires forest { IsForest store.old roots.old.items }
    requires key { key ≡ root_key eid }
    requires room { value_in eid (pairs_under store.old roots.old.items) ≡ None
        → 2 ≤ store.old.rooms }
    requires place { value_in eid (pairs_under store.old roots.old.items) ≡ None
        → vec_len roots.old < vec_capacity roots.old }
    ensures put { EditedUnder store.old store.new roots.old.items roots.new.items
        (with_pair eid value) eid result }
    ensures capacity { vec_capacity roots.new ≡ vec_capacity roots.old }
{
    match find_root(roots, key) {
        Ok(at) => put_at(store, roots, at, eid, value),
        Err(at) => put_new(store, roots, at, key, eid, value),
    }
}

/// Puts a pair under the root that stands at `at`, and returns the former value.
pub(crate) fn put_at<V>(
    store: &mut Nodes<V>,
    roots: &mut Vec<Root>,
    at: usize,
    eid: Eid,
    value: V,
) -> Option<V>
    requires forest { IsForest store.old roots.old.items }
    requires at { IsAt roots.old.items (root_key eid) at }
    requires room { value_in eid (pairs_under store.old roots.old.items) ≡ None
        → 2 ≤ store.old.rooms }
    ensures put { EditedUnder store.old store.new roots.old.items roots.new.items
        (with_pair eid value) eid result }
    ensures capacity { vec_capacity roots.new ≡ vec_capacity roots.old }
{
    no_more_bits(eid.prefix.addr);
    let root = roots[at];
    let (name, was) = put_below(store, Some(root.name), &eid, value, 0);
    roots[at] = Root {
        key: root.key,
        name,
    };
    was
}

/// Puts a pair under a new root, at the gap for it.
pub(crate) fn put_new<V>(
    store: &mut Nodes<V>,
    roots: &mut Vec<Root>,
    at: usize,
    key: u64,
    eid: Eid,
    value: V,
) -> Option<V>
    requires forest { IsForest store.old roots.old.items }
    requires gap { IsGapFor roots.old.items key at }
    requires key { key ≡ root_key eid }
    requires room { 2 ≤ store.old.rooms }
    requires place { vec_len roots.old < vec_capacity roots.old }
    ensures put { EditedUnder store.old store.new roots.old.items roots.new.items
        (with_pair eid value) eid result }
    ensures capacity { vec_capacity roots.new ≡ vec_capacity roots.old }
{
    no_more_bits(eid.prefix.addr);
    let (name, was) = put_below(store, None, &eid, value, 0);
    if roots.insert(at, Root { key, name }).is_err() {
        unreachable!();
    }
    was
}

/// Takes the pair of an EID from under its root, and returns the value. The root goes with the last
/// pair under it.
pub(crate) fn take<V>(store: &mut Nodes<V>, roots: &mut Vec<Root>, key: u64, eid: Eid) -> Option<V>
    requires forest { IsForest store.old roots.old.items }
    requires key { key ≡ root_key eid }
    ensures taken { EditedUnder store.old store.new roots.old.items roots.new.items
        (without_pair eid) eid result }
    ensures capacity { vec_capacity roots.new ≡ vec_capacity roots.old }
{
    match find_root(roots, key) {
        Ok(at) => take_at(store, roots, at, eid),
        Err(_) => None,
    }
}

/// Takes the pair of an EID from under the root that stands at `at`, and returns the value. The
/// root goes with the last pair under it.
pub(crate) fn take_at<V>(
    store: &mut Nodes<V>,
    roots: &mut Vec<Root>,
    at: usize,
    eid: Eid,
) -> Option<V>
    requires forest { IsForest store.old roots.old.items }
    requires at { IsAt roots.old.items (root_key eid) at }
    ensures taken { EditedUnder store.old store.new roots.old.items roots.new.items
        (without_pair eid) eid result }
    ensures capacity { vec_capacity roots.new ≡ vec_capacity roots.old }
{
    no_more_bits(eid.prefix.addr);
    let root = roots[at];
    let (name, was) = take_below(store, Some(root.name), &eid, 0);
    match name {
        Some(name) => {
            roots[at] = Root {
                key: root.key,
                name,
            };
        }
        None => {
            roots.remove(at);
        }
    }
    was
}
