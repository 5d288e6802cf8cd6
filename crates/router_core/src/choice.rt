// The choice among the locators of a mapping.
ghost use Rattle.std.specs.Prelude.{◌≡◌, ◌≤◌, ◌<◌, ◌+◌, ◌^◌, ◌++◌, length, take};
ghost use Rattle.locator_choice.specs.declared.limits.TheConstants.{MOST_CANDIDATES};
ghost use Rattle.map_cache.specs.Lists.{IsFew};
ghost use Rattle.router_model.specs.Cache.{known_up};
ghost use Rattle.router_model.specs.Choice.{candidate_of, candidates, chosen, is_usable};
ghost use Rattle.router_model.specs.Mappings.{status_of};
ghost use Rattle.router_core.specs.Table.{seen};

use crate::status::is_up;
use crate::view::View;
use ip_headers::Addr;
use lisp_settings::Locator;
use locator_choice::{Candidate, MOST_CANDIDATES, choose};
use map_cache::Mapping;

// The candidate in a place of the array for which there is no locator: it isn't usable.
const NOBODY: Candidate = Candidate {
    usable: false,
    priority: 255,
    weight: 0,
};

/// The locator of a mapping for a flow with that hash, or None where none is usable.
pub(crate) fn chosen(view: &View<'_>, mapping: &Mapping, hash: u32) -> Option<Addr>
    requires few { IsFew mapping.now }
    ensures { result ≡ chosen view.now.site (seen view.now)
        (status_of (known_up mapping.now) 0 mapping.now.details.locators)
        mapping.now.details.locators hash }
{
    let locators = mapping.details.locators.as_slice();
    // Most mappings have one locator, which leaves no choice.
    if let [only] = locators {
        let candidate = candidate(view, is_up(mapping, 0, only), only);
        return if candidate.usable {
            Some(only.addr)
        } else {
            None
        };
    }
    let mut places = [NOBODY; MOST_CANDIDATES];
    fill(view, mapping, 0, locators, &mut places);
    let index = choose(&places[..locators.len()], hash)?;
    Some(locators[index].addr)
}

// Writes the candidates of a mapping's locators from number `index` on to their places.
fn fill(
    view: &View<'_>,
    mapping: &Mapping,
    index: usize,
    locators: &[Locator],
    places: &mut [Candidate],
)
    requires { index + length locators.now ≤ length places.old }
    ensures length { length places.new ≡ length places.old }
    ensures places { take (index + length locators.now) places.new
        ≡ take index places.old ++ candidates view.now.site (seen view.now)
        (status_of (known_up mapping.now) index locators.now) locators.now }
{
    let [locator, others @ ..] = locators else {
        return;
    };
    places[index] = candidate(view, is_up(mapping, index, locator), locator);
    fill(view, mapping, index + 1, others, places);
}

// A locator as a candidate of the choice, where `up` is its status.
fn candidate(view: &View<'_>, up: bool, locator: &Locator) -> Candidate
    ensures { result
        ≡ candidate_of view.now.site (seen view.now) up locator.now }
{
    Candidate {
        usable: is_usable(view, up, locator),
        priority: locator.priority,
        weight: locator.weight,
    }
}

// Whether a tunnel may go to a locator whose status is `up`: its priority isn't 255, it isn't an
// own one, an own locator of its family is up, and neither status nor probes nor echoes count
// against it.
fn is_usable(view: &View<'_>, up: bool, locator: &Locator) -> bool
    ensures { result
        ≡ is_usable view.now.site (seen view.now) up locator.now }
{
    let site = view.site;
    (locator.priority != 255 && !site.is_own(locator.addr))
        && (site.has_ours(&locator.addr) && (up && view.is_up(&locator.addr)))
}
