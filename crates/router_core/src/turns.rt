// What is known of whose turn it is to be probed.
ghost use Rattle.std.specs.Prelude.{◌≡◌, List, false, true};
ghost use Rattle.std.specs.Ordering.{is_lt};
ghost use Rattle.ip_headers.specs.Addr.{IsAddr};
ghost use Rattle.ip_headers.specs.declared.addr.Addr.{Addr as AddrValue};
ghost use Rattle.lisp_settings.specs.declared.settings.OwnLocator.{OwnLocator as OwnLocatorValue};
ghost use Rattle.mapping_records.specs.Orders.{addr_order};
ghost use Rattle.router_core.specs.Turning.{KnowsLess, is_covered, no_turns, suits_all, suits_locator, turns_behind};

use ip_headers::{Addr, is_below};
use lisp_settings::Locator;
use locator_state::{LocatorState, PROBE_LIFE};

/// Which addresses are covered: none, those up to one in order, or each.
#[derive(Clone, Copy, Debug, PartialEq, Eq)]
pub(crate) enum Covered {
    Nothing,
    UpTo(Addr),
    Everything,
}

/// What is known of the locators that mappings name which last at `walked`, of those that may be
/// probed.
#[derive(Clone, Copy, Debug, PartialEq, Eq)]
pub(crate) struct Turns {
    /// Each of them that is covered has a probe that counts.
    pub covered: Covered,
    /// The last probe of each, if one counts, isn't older than this moment.
    pub since: u64,
    /// The moment of which this is known.
    pub walked: u64,
}

/// Nothing is known.
pub(crate) fn no_turns() -> Turns
    ensures { result ≡ no_turns }
{
    Turns {
        covered: Covered::Nothing,
        since: 0,
        walked: 0,
    }
}

/// What is known behind an entry of moment m.
pub(crate) fn turns_behind(turns: Turns, m: u64) -> Turns
    ensures { result ≡ turns_behind turns m }
{
    if turns.since <= m && turns.walked <= m && m - turns.since < PROBE_LIFE {
        return turns;
    }
    no_turns()
}

/// The addresses below one.
pub(crate) fn below(addr: &Addr) -> Covered
    ensures below { (other : AddrValue) → is_covered result other ≡ true
        → is_lt (addr_order other addr.now) ≡ true }
    ensures all { (other : AddrValue) → IsAddr other → is_lt (addr_order other addr.now) ≡ true
        → is_covered result other ≡ true }
{
    match addr {
        Addr::V4(bits) => {
            if *bits == 0 {
                return Covered::Nothing;
            }
            Covered::UpTo(Addr::V4(*bits - 1))
        }
        Addr::V6(bits) => {
            if *bits == 0 {
                return Covered::UpTo(Addr::V4(u32::MAX));
            }
            Covered::UpTo(Addr::V6(*bits - 1))
        }
    }
}

/// Those of the addresses that are covered which are below one, or all where it isn't covered.
pub(crate) fn lowered(covered: Covered, addr: &Addr) -> Covered
    ensures less { (other : AddrValue) → is_covered result other ≡ true
        → is_covered covered other ≡ true }
    ensures without { is_covered result addr.now ≡ false }
{
    match covered {
        Covered::Nothing => Covered::Nothing,
        Covered::UpTo(last) => {
            if is_below(&last, addr) {
                return covered;
            }
            below(addr)
        }
        Covered::Everything => below(addr),
    }
}

/// What is known once a mapping is learned that names these locators.
pub(crate) fn turns_with(turns: Turns, state: &LocatorState, locators: &[Locator]) -> Turns
    ensures less { KnowsLess result turns }
    ensures suits { (own : List OwnLocatorValue)
        → suits_all own result state.now.observed.probes locators.now ≡ true }
{
    let [locator, others @ ..] = locators else {
        return turns;
    };
    turns_to(turns_with(turns, state, others), state, locator)
}

// What is known once a mapping is learned that names this locator.
fn turns_to(turns: Turns, state: &LocatorState, locator: &Locator) -> Turns
    ensures less { KnowsLess result turns }
    ensures suits { (own : List OwnLocatorValue)
        → suits_locator own result state.now.observed.probes locator.now ≡ true }
{
    if locator.priority == 255 {
        return turns;
    }
    match state.last_probe(turns.walked, &locator.addr) {
        None => Turns {
            covered: lowered(turns.covered, &locator.addr),
            ..turns
        },
        Some(moment) => Turns {
            since: turns.since.min(moment),
            ..turns
        },
    }
}
