// Look-ups of items, by key and by age.
ghost use Rattle.std.specs.Prelude.{◌≡◌, ◌-◌, ◌≤◌, ◌<◌, None, Some, count_by, false, map, max, nat_lt, not, true, length, slice_get, IfSome, is_some};
ghost use Rattle.std.specs.List.{list_all};
ghost use Rattle.keyed_list.specs.Keyed.{Ascends, IsFound, IsKeyed, IsLinked, IsPlace, greater, is_below, is_key, is_young, item_at, last_of};
ghost use Rattle.keyed_list.specs.Lists.{last_where};

use crate::key::{Age, Mark};
use crate::keyed::{Numbered, link_of};
use crate::marks::last_number;
use crate::{Key, Keyed};
use named_list::NamedList;
use ordered_set::OrderedSet;

/// The place of the item with a number, or the place where it would stand.
pub(crate) fn place_of<T>(number: u64, list: &NamedList<Numbered<T>>) -> usize
    requires { Ascends list.now.items }
    ensures { IsPlace number list.now.items result }
{
    match place_behind_first(number, list) {
        Some(place) => place,
        None => list.place(|numbered| numbered.number < number),
    }
}

// The place of the item with a number, or None. Where no item between the first and this one went,
// the number gives how far behind the first it is.
fn place_behind_first<T>(number: u64, list: &NamedList<Numbered<T>>) -> Option<usize>
    requires { Ascends list.now.items }
    ensures { IfSome result (IsPlace number list.now.items) }
{
    let first = list.get(0)?;
    let place = number.checked_sub(first.number)? as usize;
    let numbered = list.get(place)?;
    if numbered.number != number {
        return None;
    }
    Some(place)
}

/// The place of the last item that has a key, or None.
pub(crate) fn place_last<T: Keyed>(
    key: &Key,
    list: &NamedList<Numbered<T>>,
    index: &OrderedSet<Mark>,
) -> Option<usize>
    requires ascends { Ascends list.now.items }
    requires found { IsFound T.marks_of key.now list.now.items index.now.keys }
    ensures last { item_at list.now.items result ≡ last_of T.marks_of key.now list.now.items }
    ensures within { IfSome result (λ place. place < length list.now.items) }
{
    // Mostly no echo is kept, and each data packet looks here.
    if list.len() == 0 {
        return None;
    }
    let number = last_number(key, index)?;
    Some(place_of(number, list))
}

/// The place of the last item that has a key, of those before the item at a place, which has the
/// key too. None where there is none.
pub(crate) fn place_before<T: Keyed>(
    key: &Key,
    place: usize,
    list: &NamedList<Numbered<T>>,
) -> Option<usize>
    requires ascends { Ascends list.now.items }
    requires linked { IsLinked T.marks_of key.now list.now.items }
    requires has { IfSome (slice_get list.now.items place)
        (λ item. is_key T.marks_of key.now item.item ≡ true) }
    ensures last { IfSome (slice_get list.now.items place) (λ item. item_at list.now.items result
        ≡ last_where (is_below T.marks_of key.now item.number) list.now.items) }
    ensures within { IfSome result (λ place. place < length list.now.items) }
{
    let numbered = list.get(place)?;
    let number = link_of(key, numbered).before?;
    Some(place_of(number, list))
}

// The place of the first item that has a key, of those behind the item at a place, which has the
// key too. None where there is none.
fn place_behind<T: Keyed>(key: &Key, place: usize, list: &NamedList<Numbered<T>>) -> Option<usize>
    requires ascends { Ascends list.now.items }
    requires linked { IsLinked T.marks_of key.now list.now.items }
    requires place { place < length list.now.items }
    requires has { IfSome (slice_get list.now.items place)
        (λ item. is_key T.marks_of key.now item.item ≡ true) }
    ensures further { IfSome result (λ behind. place < behind) }
    ensures within { IfSome result (λ behind. behind < length list.now.items) }
    ensures has { IfSome result (λ behind. IfSome (slice_get list.now.items behind)
        (λ item. is_key T.marks_of key.now item.item ≡ true)) }
    ensures none { result ≡ None
        → slice_get list.now.items place ≡ last_of T.marks_of key.now list.now.items }
{
    let Some(numbered) = list.get(place) else {
        unreachable!()
    };
    let number = link_of(key, numbered).behind?;
    Some(place_of(number, list))
}

/// The place of the last item that has the first key of the item at a place.
pub(crate) fn place_last_like<T: Keyed>(place: usize, list: &NamedList<Numbered<T>>) -> usize
    requires ascends { Ascends list.now.items }
    requires linked { (key : _) → IsLinked T.marks_of key list.now.items }
    requires place { place < length list.now.items }
    ensures last { IfSome (slice_get list.now.items place)
        (λ numbered. slice_get list.now.items result
        ≡ last_of T.marks_of (T.marks_of numbered.item).key list.now.items) }
    ensures within { result < length list.now.items }
{
    let Some(numbered) = list.get(place) else {
        unreachable!()
    };
    let key = numbered.item.marks().key;
    let mut last = place;
    while let Some(behind) = place_behind(&key, last, list) {
        last = behind;
    }
    last
}

/// The place of an item that isn't younger than `life` at a moment, or None where there is none.
pub(crate) fn old_place<T: Keyed>(
    now: u64,
    life: u64,
    list: &NamedList<Numbered<T>>,
    index: &OrderedSet<Mark>,
    ages: &OrderedSet<Age>,
) -> Option<usize>
    requires { IsKeyed T.marks_of list.now.items index.now.keys ages.now.keys }
    ensures old { IfSome result (λ place. IfSome (slice_get list.now.items place)
        (λ numbered. is_young T.marks_of now life numbered.item ≡ false)) }
    ensures within { IfSome result (λ place. place < length list.now.items) }
    ensures none { is_some result ≡ false
        → list_all (λ numbered. is_young T.marks_of now life numbered.item) list.now.items ≡ true }
{
    // The call of `len` brings the fact that ages ascend.
    let _ = ages.len();
    let age = ages.get(0)?;
    if now.saturating_sub(age.moment) < life {
        return None;
    }
    Some(place_of(age.number, list))
}

// Whether an item of that age isn't younger than `life` at a moment.
fn is_old(now: u64, life: u64, age: &Age) -> bool
    ensures { result ≡ not (nat_lt (now - age.now.moment) life) }
{
    now.saturating_sub(age.moment) >= life
}

/// How many items are younger than `life` at a moment. Ages are in order, so that halving finds the
/// number.
pub(crate) fn count_young<T: Keyed>(
    now: u64,
    life: u64,
    list: &NamedList<Numbered<T>>,
    index: &OrderedSet<Mark>,
    ages: &OrderedSet<Age>,
) -> usize
    requires { IsKeyed T.marks_of list.now.items index.now.keys ages.now.keys }
    ensures { result ≡ count_by (is_young T.marks_of now life)
        (map (λ numbered. numbered.item) list.now.items) }
{
    // The call of `len` brings the fact that ages ascend.
    let all = ages.len();
    all - ages.place(|age| is_old(now, life, age))
}

/// The greater of an item's moment and the greatest one so far, if there is one.
pub(crate) fn later<T: Keyed>(best: Option<u64>, item: &T) -> Option<u64>
    ensures { result ≡ Some (greater best (T.marks_of item.now).moment) }
{
    let moment = item.marks().moment;
    match best {
        None => Some(moment),
        Some(best) => Some(best.max(moment)),
    }
}
