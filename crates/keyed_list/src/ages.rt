// The ages of items, in a set.
ghost use Rattle.std.specs.Prelude.{◌≡◌, ◌≤◌, ◌<◌, ◌+◌, ◌&&◌, ◌||◌, not, length, true, false, IfSome, is_some};
ghost use Rattle.std.specs.List.{list_all};
ghost use Rattle.ordered_set.specs.Keys.{has};
ghost use Rattle.keyed_list.specs.Keys.{age_order};
ghost use Rattle.keyed_list.specs.Keyed.{has_age};

use crate::Marks;
use crate::key::Age;
use ordered_set::OrderedSet;

/// Adds the age of an item to the set. Takes no memory.
pub(crate) fn add_age(marks: &Marks, number: u64, ages: &mut OrderedSet<Age>)
    requires { 0 < ages.old.spare }
    ensures members { (age : _) → has age_order age ages.new.keys
        ≡ (has_age age number marks.now || has age_order age ages.old.keys) }
    ensures total { length ages.new.keys + ages.new.spare
        ≡ length ages.old.keys + ages.old.spare }
{
    ages.insert(Age {
        moment: marks.moment,
        number,
    });
}

/// Removes the age of an item from the set. Takes no memory.
pub(crate) fn drop_age(marks: &Marks, number: u64, ages: &mut OrderedSet<Age>)
    ensures members { (age : _) → has age_order age ages.new.keys
        ≡ (not (has_age age number marks.now) && has age_order age ages.old.keys) }
    ensures total { length ages.new.keys + ages.new.spare
        ≡ length ages.old.keys + ages.old.spare }
{
    ages.remove(&Age {
        moment: marks.moment,
        number,
    });
}
