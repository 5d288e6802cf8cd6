// Items of a key that are changed, from the last one on.
ghost use Rattle.std.specs.Prelude.{◌≡◌, ◌<◌, All, length, map, is_some, IfSome};
ghost use Rattle.std.specs.Fn.{FnReturnsAt};
ghost use Rattle.std.specs.Option.{option_map};
ghost use Rattle.keyed_list.specs.Keyed.{Ascends, IsKeyed, IsLinked, IsPlace, changed_like, changed_with, item_at, last_of};

use crate::finding::{place_before, place_of};
use crate::keyed::Numbered;
use crate::{Key, Keyed};
use named_list::NamedList;

/// Changes each item that has a key by `change`, which keeps an item's keys and moment. The place is
/// that of the last one, if there is one.
pub(crate) fn change_from<T: Keyed, F: Fn(&T) -> T>(
    key: &Key,
    last: Option<usize>,
    change: F,
    list: &mut NamedList<Numbered<T>>,
)
    requires callable { F.IsAlwaysCallable change }
    requires marks { (item new : T) → FnReturnsAt F.Fn change item new
        → T.marks_of new ≡ T.marks_of item }
    requires ascends { Ascends list.old.items }
    requires linked { IsLinked T.marks_of key.now list.old.items }
    requires last { item_at list.old.items last ≡ last_of T.marks_of key.now list.old.items }
    requires within { IfSome last (λ place. place < length list.old.items) }
    ensures items { (changed : T → T)
        → ((item new : T) → FnReturnsAt F.Fn change item new → new ≡ changed item)
        → map (λ numbered. numbered.item) list.new.items
        ≡ map (changed_with T.marks_of key.now changed)
        (map (λ numbered. numbered.item) list.old.items) }
    ensures keyed { (index : _) → (ages : _) → IsKeyed T.marks_of list.old.items index ages
        → IsKeyed T.marks_of list.new.items index ages }
    ensures below { (bound : _) → All (λ numbered. numbered.number < bound) list.old.items
        → All (λ numbered. numbered.number < bound) list.new.items }
    ensures len { length list.new.items ≡ length list.old.items }
    ensures spare { list.new.spare ≡ list.old.spare }
{
    let mut next = last;
    while let Some(place) = next {
        let numbered = list.edit(place);
        numbered.item = change(&numbered.item);
        next = place_before(key, place, list);
    }
}

// The place of the item with a number, if there is one.
fn place_if<T>(number: Option<u64>, list: &NamedList<Numbered<T>>) -> Option<usize>
    requires { Ascends list.now.items }
    ensures place { IfSome result (λ place.
        IfSome number (λ number. IsPlace number list.now.items place)) }
    ensures same { is_some result ≡ is_some number }
{
    Some(place_of(number?, list))
}

/// Changes each item that has a key, if there is one, by `change`, which keeps an item's keys and
/// moment. The number is that of the last one.
pub(crate) fn change_like<T: Keyed, F: Fn(&T) -> T>(
    key: &Option<Key>,
    last: Option<u64>,
    change: F,
    list: &mut NamedList<Numbered<T>>,
)
    requires callable { F.IsAlwaysCallable change }
    requires marks { (item new : T) → FnReturnsAt F.Fn change item new
        → T.marks_of new ≡ T.marks_of item }
    requires ascends { Ascends list.old.items }
    requires linked { (key : _) → IsLinked T.marks_of key list.old.items }
    requires last { IfSome key.now (λ key. last
        ≡ option_map (λ numbered. numbered.number) (last_of T.marks_of key list.old.items)) }
    ensures items { (changed : T → T)
        → ((item new : T) → FnReturnsAt F.Fn change item new → new ≡ changed item)
        → map (λ numbered. numbered.item) list.new.items
        ≡ map (changed_like T.marks_of key.now changed)
        (map (λ numbered. numbered.item) list.old.items) }
    ensures keyed { (index : _) → (ages : _) → IsKeyed T.marks_of list.old.items index ages
        → IsKeyed T.marks_of list.new.items index ages }
    ensures below { (bound : _) → All (λ numbered. numbered.number < bound) list.old.items
        → All (λ numbered. numbered.number < bound) list.new.items }
    ensures len { length list.new.items ≡ length list.old.items }
    ensures spare { list.new.spare ≡ list.old.spare }
{
    if let Some(key) = key {
        let place = place_if(last, list);
        change_from(key, place, change, list);
    }
}
