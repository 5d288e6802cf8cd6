// Items of a list, and their keys and moments.
ghost use Rattle.std.specs.Prelude.{◌≡◌};
ghost use Rattle.keyed_list.specs.Keyed.{link_of, with_before, with_behind, with_link};

use crate::Key;

/// The keys and the moment by which an item is found.
#[derive(Clone, Copy, Debug, PartialEq, Eq)]
pub struct Marks {
    /// The moment at which the item came, in nanoseconds.
    pub moment: u64,
    pub key: Key,
    /// The item's second key, if it has one.
    pub other: Option<Key>,
}

/// An item of a keyed list.
pub trait Keyed: Drop {
    ghost use Rattle.keyed_list.specs.declared.keyed.Marks.{Marks};

    ghost marks_of: { Self → Marks };

    /// The keys and the moment by which the item is found.
    fn marks(&self) -> Marks
        ensures { result ≡ marks_of self.now };
}

/// The neighbours of an item among those that have one of its keys: their numbers.
#[derive(Clone, Copy, Debug, PartialEq, Eq, Drop)]
pub(crate) struct Link {
    pub before: Option<u64>,
    pub behind: Option<u64>,
}

/// An item, and the number under which it came.
#[derive(Drop)]
pub(crate) struct Numbered<T> {
    pub number: u64,
    pub item: T,
    /// Its neighbours by its first key.
    pub link: Link,
    /// Its neighbours by its second key.
    pub other_link: Link,
}

pub(crate) fn copied<T: Copy>(numbered: &Numbered<T>) -> Numbered<T>
    ensures { result ≡ numbered.now }
{
    Numbered {
        number: numbered.number,
        item: numbered.item,
        link: numbered.link,
        other_link: numbered.other_link,
    }
}

/// The neighbours of an item by a key of its own.
pub(crate) fn link_of<T: Keyed>(key: &Key, numbered: &Numbered<T>) -> Link
    ensures { result ≡ link_of T.marks_of key.now numbered.now }
{
    if numbered.item.marks().key.is_same(key) {
        numbered.link
    } else {
        numbered.other_link
    }
}

/// Gives an item another neighbour before it, by a key of its own.
pub(crate) fn set_before<T: Keyed>(key: &Key, number: Option<u64>, numbered: &mut Numbered<T>)
    ensures { numbered.new ≡ with_link T.marks_of key.now
        (with_before number (link_of T.marks_of key.now numbered.old)) numbered.old }
{
    if numbered.item.marks().key.is_same(key) {
        numbered.link.before = number;
    } else {
        numbered.other_link.before = number;
    }
}

/// Gives an item another neighbour behind it, by a key of its own.
pub(crate) fn set_behind<T: Keyed>(key: &Key, number: Option<u64>, numbered: &mut Numbered<T>)
    ensures { numbered.new ≡ with_link T.marks_of key.now
        (with_behind number (link_of T.marks_of key.now numbered.old)) numbered.old }
{
    if numbered.item.marks().key.is_same(key) {
        numbered.link.behind = number;
    } else {
        numbered.other_link.behind = number;
    }
}
