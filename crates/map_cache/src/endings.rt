// The ends of mappings, in a set. A mapping that is fixed has none.
ghost use Rattle.std.specs.Prelude.{◌≡◌, ◌≤◌, ◌<◌, ◌+◌, ◌&&◌, ◌||◌, ◌^◌, not, count_by, length};
ghost use Rattle.ordered_set.specs.Keys.{has};
ghost use Rattle.map_cache.specs.Indexed.{ending_order, ends_as, has_ended_in};

use crate::Mapping;
use crate::keys::Ending;
use ordered_set::OrderedSet;

/// Adds the end of a mapping, unless it is fixed, to the set. Takes no memory.
pub(crate) fn add_ending(mapping: &Mapping, endings: &mut OrderedSet<Ending>)
    requires { 0 < endings.old.spare }
    ensures members { (key : _) → has ending_order key endings.new.keys
        ≡ (ends_as key mapping.now || has ending_order key endings.old.keys) }
    ensures spare { endings.old.spare ≤ endings.new.spare + 1 }
    ensures total { length endings.new.keys + endings.new.spare
        ≡ length endings.old.keys + endings.old.spare }
{
    if !mapping.fixed {
        endings.insert(Ending {
            end: mapping.end,
            eid: mapping.eid,
        });
    }
}

/// Removes the end of a mapping from the set. Takes no memory.
pub(crate) fn drop_ending(mapping: &Mapping, endings: &mut OrderedSet<Ending>)
    ensures members { (key : _) → has ending_order key endings.new.keys
        ≡ (not (ends_as key mapping.now) && has ending_order key endings.old.keys) }
    ensures spare { endings.old.spare ≤ endings.new.spare }
    ensures one { endings.new.spare ≤ endings.old.spare + 1 }
    ensures total { length endings.new.keys + endings.new.spare
        ≡ length endings.old.keys + endings.old.spare }
{
    if !mapping.fixed {
        endings.remove(&Ending {
            end: mapping.end,
            eid: mapping.eid,
        });
    }
}

/// How many of an instance's mappings have ended at a moment, by their ends. Looks at no more than
/// one end that is later.
pub(crate) fn ended_in(m: u64, iid: u32, endings: &OrderedSet<Ending>) -> u32
    requires { length endings.now.keys < 2 ^ 32 }
    ensures { result ≡ count_by (has_ended_in m iid) endings.now.keys }
{
    // The call of `len` brings the fact that keys are in order.
    let _ = endings.len();
    let mut ended = 0;
    let mut index = 0;
    while let Some(ending) = endings.get(index) {
        if u128::from(m) < ending.end {
            return ended;
        }
        if ending.eid.iid == iid {
            ended += 1;
        }
        index += 1;
    }
    ended
}
