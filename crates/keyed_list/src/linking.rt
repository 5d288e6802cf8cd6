// Links where an item comes or goes.
ghost use Rattle.std.specs.Prelude.{◌≡◌, ◌<◌, ◌+◌, length, map, slice_get, true, IfSome};
ghost use Rattle.std.specs.List.{remove};
ghost use Rattle.std.specs.Option.{option_map};
ghost use Rattle.keyed_list.specs.Keyed.{Ascends, Holds, IsFollowed, IsFound, IsLinked, IsPut, IsUnlinked, bare, is_key, last_of, relinked, with_before, with_behind};

use crate::finding::place_of;
use crate::key::Mark;
use crate::keyed::{Link, Numbered, link_of, set_before, set_behind};
use crate::marks::turn_back;
use crate::{Key, Keyed, Marks};
use named_list::NamedList;
use ordered_set::OrderedSet;

// Links the item with a number, which has the key, if there is one, to another one behind it.
fn link_behind<T: Keyed>(
    key: &Key,
    number: Option<u64>,
    behind: Option<u64>,
    list: &mut NamedList<Numbered<T>>,
)
    requires ascends { Ascends list.old.items }
    requires holds { IfSome number (Holds T.marks_of key.now list.old.items) }
    ensures items { list.new.items
        ≡ map (relinked T.marks_of key.now number (with_behind behind)) list.old.items }
    ensures spare { list.new.spare ≡ list.old.spare }
{
    if let Some(number) = number {
        let place = place_of(number, list);
        set_behind(key, behind, list.edit(place));
    }
}

// Links the item with a number, which has the key, if there is one, to another one before it.
fn link_before<T: Keyed>(
    key: &Key,
    number: Option<u64>,
    before: Option<u64>,
    list: &mut NamedList<Numbered<T>>,
)
    requires ascends { Ascends list.old.items }
    requires holds { IfSome number (Holds T.marks_of key.now list.old.items) }
    ensures items { list.new.items
        ≡ map (relinked T.marks_of key.now number (with_before before)) list.old.items }
    ensures spare { list.new.spare ≡ list.old.spare }
{
    if let Some(number) = number {
        let place = place_of(number, list);
        set_before(key, before, list.edit(place));
    }
}

// Links the last item of each key of an item, if there is one, to the number of that item, which
// comes behind it.
fn follow<T: Keyed>(
    marks: &Marks,
    number: u64,
    before: Option<u64>,
    other_before: Option<u64>,
    list: &mut NamedList<Numbered<T>>,
)
    requires ascends { Ascends list.old.items }
    requires first { before
        ≡ option_map (λ last. last.number) (last_of T.marks_of marks.now.key list.old.items) }
    requires second { IfSome marks.now.other (λ other. other_before
        ≡ option_map (λ last. last.number) (last_of T.marks_of other list.old.items)) }
    ensures followed { IsFollowed T.marks_of marks.now number list.old.items list.new.items }
    ensures spare { list.new.spare ≡ list.old.spare }
{
    link_behind(&marks.key, before, Some(number), list);
    if let Some(other) = &marks.other {
        link_behind(other, other_before, Some(number), list);
    }
}

/// Adds an item at the end, and links it to the last item of each of its keys. Takes no memory.
pub(crate) fn put<T: Keyed>(
    item: T,
    marks: &Marks,
    number: u64,
    before: Option<u64>,
    other_before: Option<u64>,
    list: &mut NamedList<Numbered<T>>,
)
    requires spare { 0 < list.old.spare }
    requires ascends { Ascends list.old.items }
    requires marks { marks.now ≡ T.marks_of item }
    requires first { before
        ≡ option_map (λ last. last.number) (last_of T.marks_of marks.now.key list.old.items) }
    requires second { IfSome marks.now.other (λ other. other_before
        ≡ option_map (λ last. last.number) (last_of T.marks_of other list.old.items)) }
    ensures put { IsPut T.marks_of item number before other_before list.old.items list.new.items }
    ensures spare { list.new.spare + 1 ≡ list.old.spare }
{
    follow(marks, number, before, other_before, list);
    list.insert(
        list.len(),
        Numbered {
            number,
            item,
            link: Link {
                before,
                behind: None,
            },
            other_link: Link {
                before: other_before,
                behind: None,
            },
        },
    );
}

// Lets a key lead past the item at a place, which has the key and is about to go. Its neighbours
// are linked to each other, and where there is none behind it, the mark of the key turns back.
fn unlink_key<T: Keyed>(
    key: &Key,
    place: usize,
    list: &mut NamedList<Numbered<T>>,
    index: &mut OrderedSet<Mark>,
)
    requires place { place < length list.old.items }
    requires has { IfSome (slice_get list.old.items place)
        (λ item. is_key T.marks_of key.now item.item ≡ true) }
    requires ascends { Ascends list.old.items }
    requires found { IsFound T.marks_of key.now list.old.items index.old.keys }
    requires linked { IsLinked T.marks_of key.now list.old.items }
    ensures unlinked { IsUnlinked T.marks_of key.now place list.old.items list.new.items
        index.old.keys index.new.keys }
    ensures spare { list.new.spare ≡ list.old.spare }
    ensures total { length index.new.keys + index.new.spare
        ≡ length index.old.keys + index.old.spare }
{
    let Some(numbered) = list.get(place) else {
        unreachable!()
    };
    let link = link_of(key, numbered);
    link_behind(key, link.before, link.behind, list);
    link_before(key, link.behind, link.before, list);
    if link.behind.is_none() {
        turn_back(key, link.before, index);
    }
}

/// Lets all keys lead past the item at a place, which is about to go. Takes no memory.
pub(crate) fn unlink<T: Keyed>(
    place: usize,
    list: &mut NamedList<Numbered<T>>,
    index: &mut OrderedSet<Mark>,
)
    requires place { place < length list.old.items }
    requires ascends { Ascends list.old.items }
    requires found { (key : _) → IsFound T.marks_of key list.old.items index.old.keys }
    requires linked { (key : _) → IsLinked T.marks_of key list.old.items }
    ensures bare { map bare list.new.items ≡ map bare list.old.items }
    ensures found { (key : _) → IsFound T.marks_of key (remove list.new.items place)
        index.new.keys }
    ensures linked { (key : _) → IsLinked T.marks_of key (remove list.new.items place) }
    ensures spare { list.new.spare ≡ list.old.spare }
    ensures total { length index.new.keys + index.new.spare
        ≡ length index.old.keys + index.old.spare }
{
    let Some(numbered) = list.get(place) else {
        unreachable!()
    };
    let marks = numbered.item.marks();
    unlink_key(&marks.key, place, list, index);
    let Some(other) = &marks.other else {
        return;
    };
    if !marks.key.is_same(other) {
        unlink_key(other, place, list, index);
    }
}
