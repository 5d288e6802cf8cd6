// The last item of each key, in a set of marks.
ghost use Rattle.std.specs.Prelude.{◌≡◌, ◌≤◌, ◌<◌, ◌+◌, ◌&&◌, ℕ, None, Some, true, length, slice_get, is_some, IfSome, if◌then◌else◌};
ghost use Rattle.ordered_set.specs.Keys.{IsPlace};
ghost use Rattle.keyed_list.specs.Keys.{mark_order, same_key};
ghost use Rattle.keyed_list.specs.Keyed.{has_key, number_at, number_of};

use crate::key::Mark;
use crate::{Key, Marks};
use ordered_set::OrderedSet;

// The place of a key's mark, or the one at which it would be put.
fn place_of(key: &Key, index: &OrderedSet<Mark>) -> usize
    ensures { (number : ℕ) → IsPlace mark_order (record { key = key.now; number = number })
        index.now.keys result }
{
    // The call of `len` brings the fact that keys ascend.
    let _ = index.len();
    index.place(|mark| mark.key.is_below(key))
}

// The number of the mark at a place, where it is that of a key, or None.
fn number_at(key: &Key, place: usize, index: &OrderedSet<Mark>) -> Option<u64>
    ensures { result ≡ number_at key.now (slice_get index.now.keys place) }
{
    let mark = index.get(place)?;
    if !mark.key.is_same(key) {
        return None;
    }
    Some(mark.number)
}

/// The number of the last item that has a key, or None.
pub(crate) fn last_number(key: &Key, index: &OrderedSet<Mark>) -> Option<u64>
    ensures { result ≡ number_of key.now index.now.keys }
{
    number_at(key, place_of(key, index), index)
}

// Gives the mark of a key a number, and returns the number that it had, or None where it is new.
// Takes no memory.
fn put_mark(key: &Key, number: u64, index: &mut OrderedSet<Mark>) -> Option<u64>
    requires { 0 < index.old.spare }
    ensures before { result ≡ number_of key.now index.old.keys }
    ensures numbers { (other : _) → number_of other index.new.keys
        ≡ (if same_key key.now other then Some number else number_of other index.old.keys) }
    ensures spare { index.old.spare ≤ index.new.spare + 1 }
    ensures total { length index.new.keys + index.new.spare
        ≡ length index.old.keys + index.old.spare }
{
    let place = place_of(key, index);
    let before = number_at(key, place, index);
    let mark = Mark { key: *key, number };
    match before {
        None => index.put_at(place, mark),
        Some(_) => index.replace_at(place, mark),
    }
    before
}

/// Gives the marks of an item's keys its number, and returns the numbers that they had: by these the
/// item is linked. Takes no memory.
pub(crate) fn put_marks(
    marks: &Marks,
    number: u64,
    index: &mut OrderedSet<Mark>,
) -> (Option<u64>, Option<u64>)
    requires { 2 ≤ index.old.spare }
    ensures first { result.0 ≡ number_of marks.now.key index.old.keys }
    ensures second { IfSome marks.now.other (λ other. result.1 ≡ number_of other index.old.keys) }
    ensures numbers { (key : _) → number_of key index.new.keys
        ≡ (if has_key marks.now key then Some number else number_of key index.old.keys) }
    ensures total { length index.new.keys + index.new.spare
        ≡ length index.old.keys + index.old.spare }
{
    let before = put_mark(&marks.key, number, index);
    let Some(key) = &marks.other else {
        return (before, None);
    };
    if marks.key.is_same(key) {
        return (before, before);
    }
    let other_before = put_mark(key, number, index);
    (before, other_before)
}

/// Gives the mark of a key, which is there, the number before, or removes it where there is none.
/// Takes no memory.
pub(crate) fn turn_back(key: &Key, before: Option<u64>, index: &mut OrderedSet<Mark>)
    requires { is_some (number_of key.now index.old.keys) ≡ true }
    ensures numbers { (other : _) → number_of other index.new.keys
        ≡ (if same_key key.now other then before else number_of other index.old.keys) }
    ensures total { length index.new.keys + index.new.spare
        ≡ length index.old.keys + index.old.spare }
{
    let place = place_of(key, index);
    match before {
        None => {
            index.take_at(place);
        }
        Some(number) => index.replace_at(place, Mark { key: *key, number }),
    }
}
