// So many probes as no run makes, and the last one of a locator.
use crate::rows::{SECOND, on_locators};
use ip_headers::Addr;
use locator_state::{LocatorState, MOST_PROBES, NoMemory};
use std::process::Abort;

const FIRST: Addr = Addr::V4(0xc633_6401);

const OTHER: Addr = Addr::V4(0xc633_6402);

// Adds probes with the nonces from 0 on.
fn fill(state: &mut LocatorState, moment: u64, probes: u64) -> Result<(), NoMemory> {
    for nonce in 0..probes {
        state.probed(moment, FIRST, nonce)?;
    }
    Ok(())
}

#[test]
fn after_9600_probes_none_may_be_made_until_600_seconds_are_over(
    rt: HostRuntime,
) -> Result<(), NoMemory> {
    on_locators(rt.alloc(), |state| full_twice(&rt, state))
}

fn full_twice(rt: &impl Abort, state: &mut LocatorState) -> Result<(), NoMemory> {
    for moment in [0, 600 * SECOND] {
        fill(state, moment, 9599)?;
        assert!(rt; state.may_probe(moment));
        state.probed(moment, OTHER, 9599)?;
        assert!(rt; !state.may_probe(moment + 600 * SECOND - 1));
        assert_eq!(rt; state.probe_count(moment) as usize, MOST_PROBES);
        assert!(rt; state.may_probe(moment + 600 * SECOND));
    }
    state.purge(1200 * SECOND);
    assert_eq!(rt; state.probe_count(600 * SECOND), 0);
    Ok(())
}

#[test]
fn each_probe_of_a_locator_leads_to_the_last_one(rt: HostRuntime) -> Result<(), NoMemory> {
    on_locators(rt.alloc(), |state| leads_to_the_last(&rt, state))
}

fn leads_to_the_last(rt: &impl Abort, state: &mut LocatorState) -> Result<(), NoMemory> {
    state.probed(0, FIRST, 42)?;
    state.probed(0, OTHER, 43)?;
    state.probed(70 * SECOND, FIRST, 44)?;
    let rows = [
        (600 * SECOND - 1, 0, Some(70 * SECOND)),
        (600 * SECOND - 1, 1, Some(0)),
        (600 * SECOND - 1, 2, Some(70 * SECOND)),
        (600 * SECOND - 1, 3, None),
        (600 * SECOND, 0, Some(70 * SECOND)),
        (600 * SECOND, 1, None),
        (670 * SECOND, 0, None),
    ];
    for (moment, place, last) in rows {
        assert_eq!(rt; state.last_probe_at(moment, place), last);
    }
    Ok(())
}
