// Full rings of names, each with a head. A name that comes in at one end of a ring pushes one out
// at the other end, and moves none.
ghost use Rattle.std.specs.Prelude.{◌≡◌, ◌≤◌, ◌<◌, ◌+◌, ◌*◌, ℕ, List, [], ◌∷◌, ◌++◌, length, slice_index_or};
ghost use Rattle.std.specs.List.{insert, remove};
ghost use Rattle.named_list.specs.Limits.{ring_names};
ghost use Rattle.named_list.specs.Rings.{AreHeads, joined, rolled};

use crate::RING_NAMES;
use std::mem;

// The place in a ring of the name that is number `place` from the ring's head on.
pub(crate) fn turned(head: usize, place: usize) -> usize
    requires head { head ≤ ring_names }
    requires place { place < ring_names }
    ensures within { result < ring_names }
    ensures names { (ring : List ℕ) (name : ℕ) → length ring ≡ ring_names
        → slice_index_or (rolled head ring) place name ≡ slice_index_or ring result name }
{
    let turned = head + place;
    if turned < RING_NAMES {
        turned
    } else {
        turned - RING_NAMES
    }
}

// The place behind the last name of a ring in its order: its head, or the end of the ring for 0.
fn end_of(head: usize) -> usize
    requires { head ≤ ring_names }
    ensures some { 0 < result }
    ensures within { result ≤ ring_names }
    ensures names { (ring : List ℕ) → length ring ≡ ring_names
        → rolled result ring ≡ rolled head ring }
{
    if head == 0 {
        return RING_NAMES;
    }
    head
}

// The place of the first name of a ring in its order: its head, or 0 for the end of the ring.
fn first_of(head: usize) -> usize
    requires { head ≤ ring_names }
    ensures within { result < ring_names }
    ensures names { (ring : List ℕ) → length ring ≡ ring_names
        → rolled result ring ≡ rolled head ring }
{
    if head == RING_NAMES {
        return 0;
    }
    head
}

// Puts a name before those of a ring, and returns the last of them, which goes out.
fn roll_on(ring: &mut [u32], head: &mut usize, name: u32) -> u32
    requires full { length ring.old ≡ ring_names }
    requires head { head.old ≤ ring_names }
    ensures names { name ∷ rolled head.old ring.old ≡ rolled head.new ring.new ++ result ∷ [] }
    ensures len { length ring.new ≡ ring_names }
    ensures head { head.new ≤ ring_names }
{
    let last = end_of(*head) - 1;
    *head = last;
    mem::replace(&mut ring[last], name)
}

// Puts a name behind those of a ring, and returns the first of them, which goes out.
fn roll_back(ring: &mut [u32], head: &mut usize, name: u32) -> u32
    requires full { length ring.old ≡ ring_names }
    requires head { head.old ≤ ring_names }
    ensures names { result ∷ rolled head.new ring.new ≡ rolled head.old ring.old ++ name ∷ [] }
    ensures len { length ring.new ≡ ring_names }
    ensures head { head.new ≤ ring_names }
{
    let first = first_of(*head);
    *head = first + 1;
    mem::replace(&mut ring[first], name)
}

// Puts a name before those of all rings, and returns the last of them, which goes out.
fn push_on(slots: &mut [u32], heads: &mut [usize], name: u32) -> u32
    requires full { length slots.old ≡ length heads.old * ring_names }
    requires heads { AreHeads heads.old }
    ensures names { name ∷ joined ring_names heads.old slots.old
        ≡ joined ring_names heads.new slots.new ++ result ∷ [] }
    ensures len { length slots.new ≡ length slots.old }
    ensures heads_len { length heads.new ≡ length heads.old }
    ensures heads { AreHeads heads.new }
{
    let mut carried = name;
    let mut ring = 0;
    while ring < heads.len() {
        let start = ring * RING_NAMES;
        carried = roll_on(
            &mut slots[start..start + RING_NAMES],
            &mut heads[ring],
            carried,
        );
        ring += 1;
    }
    carried
}

// Puts a name behind those of all rings, and returns the first of them, which goes out.
fn pull_back(slots: &mut [u32], heads: &mut [usize], name: u32) -> u32
    requires full { length slots.old ≡ length heads.old * ring_names }
    requires heads { AreHeads heads.old }
    ensures names { result ∷ joined ring_names heads.new slots.new
        ≡ joined ring_names heads.old slots.old ++ name ∷ [] }
    ensures len { length slots.new ≡ length slots.old }
    ensures heads_len { length heads.new ≡ length heads.old }
    ensures heads { AreHeads heads.new }
{
    let mut carried = name;
    let mut ring = heads.len();
    while 0 < ring {
        ring -= 1;
        let start = ring * RING_NAMES;
        carried = roll_back(
            &mut slots[start..start + RING_NAMES],
            &mut heads[ring],
            carried,
        );
    }
    carried
}

// Lays a ring out anew, so that its names begin at its first place.
pub(crate) fn straighten(ring: &mut [u32], head: usize)
    requires head { head ≤ length ring.old }
    ensures names { ring.new ≡ rolled head ring.old }
    ensures len { length ring.new ≡ length ring.old }
{
    ring.rotate_left(head);
}

// Puts a name before those of a part of a ring, and returns the last of them, which goes out.
fn shift_on(part: &mut [u32], name: u32) -> u32
    requires { 0 < length part.old }
    ensures names { name ∷ part.old ≡ part.new ++ result ∷ [] }
    ensures len { length part.new ≡ length part.old }
{
    part.rotate_right(1);
    mem::replace(&mut part[0], name)
}

// Puts a name behind those of a part of a ring, and returns the first of them, which goes out.
fn shift_back(part: &mut [u32], name: u32) -> u32
    requires { 0 < length part.old }
    ensures names { result ∷ part.new ≡ part.old ++ name ∷ [] }
    ensures len { length part.new ≡ length part.old }
{
    part.rotate_left(1);
    let last = part.len() - 1;
    mem::replace(&mut part[last], name)
}

// Puts a name at a place of a ring, and returns the last name, which goes out. Moves only the names
// that lie between that place and the ring's head.
fn put_in(ring: &mut [u32], head: &mut usize, place: usize, name: u32) -> u32
    requires full { length ring.old ≡ ring_names }
    requires head { head.old ≤ ring_names }
    requires place { place < ring_names }
    ensures names { insert (rolled head.old ring.old) place name
        ≡ rolled head.new ring.new ++ result ∷ [] }
    ensures len { length ring.new ≡ ring_names }
    ensures head { head.new ≤ ring_names }
{
    let end = end_of(*head);
    // The names from the head to the end of the ring are the first ones of the order.
    let front = RING_NAMES - end;
    if place < front {
        let last = end - 1;
        *head = last;
        return shift_back(&mut ring[last..end + place], name);
    }
    shift_on(&mut ring[place - front..end], name)
}

// Takes the name at a place out of a ring, and puts another name behind the rest. Moves only the
// names that lie between that place and the ring's head.
fn take_out(ring: &mut [u32], head: &mut usize, place: usize, name: u32) -> u32
    requires full { length ring.old ≡ ring_names }
    requires head { head.old ≤ ring_names }
    requires place { place < ring_names }
    ensures name { result ≡ slice_index_or (rolled head.old ring.old) place result }
    ensures names { rolled head.new ring.new
        ≡ remove (rolled head.old ring.old) place ++ name ∷ [] }
    ensures len { length ring.new ≡ ring_names }
    ensures head { head.new ≤ ring_names }
{
    let first = first_of(*head);
    let front = RING_NAMES - first;
    if place < front {
        *head = first + 1;
        return shift_on(&mut ring[first..first + place + 1], name);
    }
    shift_back(&mut ring[place - front..first], name)
}

// Puts a name at a place of the rings, and returns the last name of all, which goes out.
pub(crate) fn insert_below(slots: &mut [u32], heads: &mut [usize], index: usize, name: u32) -> u32
    requires full { length slots.old ≡ length heads.old * ring_names }
    requires heads { AreHeads heads.old }
    requires index { index < length slots.old }
    ensures names { insert (joined ring_names heads.old slots.old) index name
        ≡ joined ring_names heads.new slots.new ++ result ∷ [] }
    ensures len { length slots.new ≡ length slots.old }
    ensures heads_len { length heads.new ≡ length heads.old }
    ensures heads { AreHeads heads.new }
{
    let ring = index / RING_NAMES;
    let start = ring * RING_NAMES;
    let end = start + RING_NAMES;
    let carried = put_in(
        &mut slots[start..end],
        &mut heads[ring],
        index - start,
        name,
    );
    push_on(&mut slots[end..], &mut heads[ring + 1..], carried)
}

// Takes the name at a place out of the rings, and puts another name behind all of them.
pub(crate) fn remove_below(slots: &mut [u32], heads: &mut [usize], index: usize, name: u32) -> u32
    requires full { length slots.old ≡ length heads.old * ring_names }
    requires heads { AreHeads heads.old }
    requires index { index < length slots.old }
    ensures name { result ≡ slice_index_or (joined ring_names heads.old slots.old) index result }
    ensures names { joined ring_names heads.new slots.new
        ≡ remove (joined ring_names heads.old slots.old) index ++ name ∷ [] }
    ensures len { length slots.new ≡ length slots.old }
    ensures heads_len { length heads.new ≡ length heads.old }
    ensures heads { AreHeads heads.new }
{
    let ring = index / RING_NAMES;
    let start = ring * RING_NAMES;
    let end = start + RING_NAMES;
    let carried = pull_back(&mut slots[end..], &mut heads[ring + 1..], name);
    take_out(
        &mut slots[start..end],
        &mut heads[ring],
        index - start,
        carried,
    )
}
