// The choice among the locators of a mapping, by priority and weight (RFC 9301, section 5.4).
ghost use Rattle.std.specs.Prelude.{◌≡◌, ◌≤◌, ◌<◌, ◌*◌, ◌↔◌, ◌==◌, true, false, length, map, sum, None, IfSome};
ghost use Rattle.std.specs.List.{list_all, list_any};
ghost use Rattle.locator_choice.specs.Choice.{chosen, interval_of, least_priority, one_weight, partaking, share, takes_part};
ghost use Rattle.locator_choice.specs.Limits.{most_candidates};

/// A locator as a candidate of the choice: whether it is usable, its priority and its weight.
#[derive(Clone, Copy, Debug, PartialEq, Eq)]
pub struct Candidate {
    pub usable: bool,
    /// The priority of the locator: usable locators of the least number go first.
    pub priority: u8,
    /// The locator's share of the flows among the locators of its priority.
    pub weight: u8,
}

/// The index of the candidate for a flow with that hash, or None where none is usable. Of the
/// usable candidates those of least priority share the flows by their weights, equally where all
/// weights are equal.
pub fn choose(candidates: &[Candidate], hash: u32) -> Option<usize>
    requires { length candidates.now ≤ most_candidates }
    ensures chosen { result ≡ chosen candidates.now hash }
    ensures none { (result ≡ None) ↔ (list_any (λ candidate. candidate.usable) candidates.now ≡ false) }
    ensures within { IfSome result (λ index. index < length candidates.now) }
{
    let priority = least_priority(candidates);
    let equal = is_one_weight(candidates, priority);
    let whole = whole(candidates, priority, equal);
    if whole == 0 {
        return None;
    }
    interval_of(candidates, priority, equal, hash % whole)
}

// The least priority of the usable candidates, 255 without one. Where one is usable, one of them
// has that priority.
fn least_priority(candidates: &[Candidate]) -> u8
    ensures least { result ≡ least_priority candidates.now }
    ensures one { list_any (λ candidate. candidate.usable) candidates.now ≡ true
        → 0 < length (partaking result candidates.now) }
    ensures nobody { list_any (λ candidate. candidate.usable) candidates.now ≡ false
        → result ≡ 255 }
{
    let [candidate, others @ ..] = candidates else {
        return 255;
    };
    let least = least_priority(others);
    if candidate.usable {
        candidate.priority.min(least)
    } else {
        least
    }
}

fn takes_part(candidate: &Candidate, priority: u8) -> bool
    ensures { result ≡ takes_part priority candidate.now }
{
    candidate.usable && candidate.priority == priority
}

// Whether all candidates that take part have one weight.
fn is_one_weight(candidates: &[Candidate], priority: u8) -> bool
    ensures { result ≡ one_weight (partaking priority candidates.now) }
{
    let [candidate, others @ ..] = candidates else {
        return true;
    };
    if takes_part(candidate, priority) {
        have_weight(others, priority, candidate.weight)
    } else {
        is_one_weight(others, priority)
    }
}

// Whether all candidates that take part have this weight.
fn have_weight(candidates: &[Candidate], priority: u8, weight: u8) -> bool
    ensures { result ≡ list_all (λ other. other.weight == weight) (partaking priority candidates.now) }
{
    for candidate in candidates {
        if takes_part(candidate, priority) && candidate.weight != weight {
            return false;
        }
    }
    true
}

// A candidate's share of the flows, 0 where it takes no part; `equal` where all weights are equal.
fn share(candidate: &Candidate, priority: u8, equal: bool) -> u32
    ensures share { result ≡ share equal priority candidate.now }
    ensures most { result ≤ 255 }
{
    if !takes_part(candidate, priority) {
        return 0;
    }
    if equal {
        1
    } else {
        u32::from(candidate.weight)
    }
}

// The sum of the shares of all candidates.
fn whole(candidates: &[Candidate], priority: u8, equal: bool) -> u32
    requires { length candidates.now ≤ most_candidates }
    ensures whole { result ≡ sum (map (share equal priority) candidates.now) }
    ensures most { result ≤ 255 * length candidates.now }
{
    let [candidate, others @ ..] = candidates else {
        return 0;
    };
    share(candidate, priority, equal) + whole(others, priority, equal)
}

// The index of the candidate whose interval holds the number.
fn interval_of(candidates: &[Candidate], priority: u8, equal: bool, number: u32) -> Option<usize>
    requires { length candidates.now ≤ most_candidates }
    ensures interval { result ≡ interval_of (map (share equal priority) candidates.now) number }
    ensures within { IfSome result (λ index. index < length candidates.now) }
{
    let [candidate, others @ ..] = candidates else {
        return None;
    };
    let size = share(candidate, priority, equal);
    if number < size {
        return Some(0);
    }
    let index = interval_of(others, priority, equal, number - size)?;
    Some(index + 1)
}
