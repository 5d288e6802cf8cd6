// The choice among candidates by priority and weight, by hand.
use locator_choice::{Candidate, choose};

// A usable candidate.
fn usable(priority: u8, weight: u8) -> Candidate {
    Candidate {
        usable: true,
        priority,
        weight,
    }
}

#[test]
fn flows_are_shared_by_weight(rt: HostRuntime) {
    let weighted = [usable(1, 30), usable(1, 20), usable(1, 20), usable(1, 10)];
    for (hash, index) in [
        (0, 0),
        (29, 0),
        (30, 1),
        (49, 1),
        (50, 2),
        (69, 2),
        (70, 3),
        (79, 3),
        (80, 0),
    ] {
        assert_eq!(rt; choose(&weighted, hash), Some(index), "{hash}");
    }
    assert_eq!(rt; choose(&[], 0), None);
    assert_eq!(rt; choose(&[usable(255, 0)], 7), Some(0));
}
