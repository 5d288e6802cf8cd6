// The order in which locators are probed.
ghost use Rattle.std.specs.Prelude.{◌≡◌, ◌≤◌, ◌<◌, ◌||◌, length, slice_get, take, vec_len, vec_capacity};
ghost use Rattle.std.specs.List.{position_or_len};
ghost use Rattle.mapping_records.specs.Eids.{same_address};
ghost use Rattle.locator_state.specs.Limits.{most_targets};
ghost use Rattle.locator_state.specs.Turns.{goes_before, has_rested, is_at, turn_of, with_target};

use crate::Target;
use crate::limits::{MOST_TARGETS, PROBE_REST};
use ip_headers::{is_below, same_address};

/// Whether the last probe of a locator is `PROBE_REST` old, or none counts.
pub fn has_rested(now: u64, last: Option<u64>) -> bool
    ensures { result ≡ has_rested now last }
{
    match last {
        None => true,
        Some(moment) => now.saturating_sub(moment) >= PROBE_REST,
    }
}

// The turn of a locator: those without a probe come first, the others by the moment of the last
// one.
fn turn_of(last: Option<u64>) -> u128
    ensures { result ≡ turn_of last }
{
    match last {
        None => 0,
        Some(moment) => u128::from(moment) + 1,
    }
}

fn goes_before(a: &Target, b: &Target) -> bool
    ensures { result ≡ goes_before a.now b.now }
{
    let (turn, other) = (turn_of(a.last), turn_of(b.last));
    turn < other || (turn == other && is_below(&a.rloc, &b.rloc))
}

// Whether a locator has its place before another, or is that one.
fn is_placed(target: &Target, next: &Target) -> bool
    ensures { result ≡ (same_address target.now.rloc next.now.rloc || goes_before target.now next.now) }
{
    same_address(&target.rloc, &next.rloc) || goes_before(target, next)
}

// The place of a locator: that of the first that it goes before, or is.
fn place(target: &Target, targets: &[Target]) -> usize
    ensures place { result ≡ position_or_len (λ next. same_address target.now.rloc next.rloc
        || goes_before target.now next) targets.now }
    ensures within { result ≤ length targets.now }
{
    for index in 0..targets.len() {
        if is_placed(target, &targets[index]) {
            return index;
        }
    }
    targets.len()
}

// Whether a locator stands at that place.
fn is_there(target: &Target, index: usize, targets: &[Target]) -> bool
    ensures { result ≡ is_at target.now.rloc (slice_get targets.now index) }
{
    match targets.get(index) {
        None => false,
        Some(next) => same_address(&target.rloc, &next.rloc),
    }
}

/// Puts a locator in its place among the first `MOST_TARGETS` in order. A locator that is there
/// already keeps its EID.
pub fn offer(target: Target, first: &mut Vec<Target>)
    requires few { vec_len first.old ≤ most_targets }
    requires room { most_targets < vec_capacity first.old }
    ensures items { first.new.items ≡ take most_targets (with_target target first.old.items) }
    ensures few { vec_len first.new ≤ most_targets }
    ensures capacity { vec_capacity first.old ≤ vec_capacity first.new }
{
    let index = place(&target, first);
    if !is_there(&target, index, first) {
        if first.insert(index, target).is_err() {
            unreachable!();
        }
        first.truncate(MOST_TARGETS);
    }
}
