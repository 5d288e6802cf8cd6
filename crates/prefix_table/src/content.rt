// Contents of nodes, which stand apart from what a way down reads.
ghost use Rattle.std.specs.Prelude.{◌≡◌, ◌<◌, ◌≤◌, length, slice_get, vec_capacity, None, IfOk, IfSome};
ghost use Rattle.std.specs.Fn.{FnReturnsAt};
ghost use Rattle.node_store.specs.Copies.{MakesCopies};
ghost use Rattle.prefix_table.specs.Keys.{key_of};

use crate::key::Key;
use ip_headers::{Addr, Prefix};
use mapping_records::Eid;
use node_store::NoMemory;
use std::mem;

/// What is read of a node only where it has a value, or where the trie changes.
#[derive(Drop)]
pub(crate) struct Content<V> {
    pub(crate) key: Key,
    pub(crate) value: Option<V>,
    pub(crate) eid: Eid,
}

/// Sets the EID and the value of a content without a value.
pub(crate) fn fill<V>(content: &mut Content<V>, eid: Eid, value: Option<V>)
    requires { content.old.value ≡ None }
    ensures eid { content.new.eid ≡ eid }
    ensures key { content.new.key ≡ key_of eid }
    ensures value { content.new.value ≡ value }
{
    content.key = Key::of(&eid);
    content.eid = eid;
    match mem::replace(&mut content.value, value) {
        None => {}
        Some(_) => unreachable!(),
    }
}

/// Adds contents without a value until there are `all`. Takes no memory.
pub(crate) fn add_contents<V>(contents: &mut Vec<Content<V>>, all: usize)
    requires more { length contents.old.items ≤ all }
    requires room { all ≤ vec_capacity contents.old }
    ensures len { length contents.new.items ≡ all }
    ensures kept { (i : _) → i < length contents.old.items
        → slice_get contents.new.items i ≡ slice_get contents.old.items i }
    ensures vacant { (i : _) → length contents.old.items ≤ i
        → IfSome (slice_get contents.new.items i) (λ content. content.value ≡ None) }
{
    while contents.len() < all {
        let eid = Eid {
            iid: 0,
            prefix: Prefix::host(Addr::V4(0)),
        };
        contents.push_reserved(Content {
            key: Key::of(&eid),
            value: None,
            eid,
        });
    }
}

/// A copy of contents. `each` makes the copy of a value.
pub(crate) fn copied_contents<V: Drop, F: Fn(&V) -> Result<V, NoMemory>>(
    contents: &Vec<Content<V>>,
    each: &F,
) -> Result<Vec<Content<V>>, NoMemory>
    requires callable { F.IsAlwaysCallable each.now }
    requires copies { MakesCopies (FnReturnsAt F.Fn each.now) }
    ensures { IfOk result (λ copy. copy.items ≡ contents.now.items) }
{
    let mut copy = Vec::with_capacity(*contents.allocator(), contents.len())?;
    for content in contents {
        copy.push_reserved(copied_content(content, each)?);
    }
    Ok(copy)
}

fn copied_content<V: Drop, F: Fn(&V) -> Result<V, NoMemory>>(
    content: &Content<V>,
    each: &F,
) -> Result<Content<V>, NoMemory>
    requires callable { F.IsAlwaysCallable each.now }
    requires copies { MakesCopies (FnReturnsAt F.Fn each.now) }
    ensures { IfOk result (λ copy. copy ≡ content.now) }
{
    let value = copied_value(&content.value, each)?;
    Ok(Content {
        key: content.key,
        value,
        eid: content.eid,
    })
}

fn copied_value<V: Drop, F: Fn(&V) -> Result<V, NoMemory>>(
    value: &Option<V>,
    each: &F,
) -> Result<Option<V>, NoMemory>
    requires callable { F.IsAlwaysCallable each.now }
    requires copies { MakesCopies (FnReturnsAt F.Fn each.now) }
    ensures { IfOk result (λ copy. copy ≡ value.now) }
{
    let Some(value) = value else {
        return Ok(None);
    };
    let copy = each(value)?;
    Ok(Some(copy))
}
