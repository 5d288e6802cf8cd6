// The least address that mappings name, and the EID of a mapping that names it.
ghost use Rattle.std.specs.Prelude.{◌≡◌, fold, map, filter};
ghost use Rattle.std.specs.Option.{option_copied};
ghost use Rattle.map_cache.specs.Named.{is_named, lesser};

use crate::searching::comes_after;
use ip_headers::{Addr, is_below};
use mapping_records::{Eid, Locator};

/// The least of the best address so far and of those above `after` that the locators of an EID's
/// mapping name; of equal addresses the first.
pub(crate) fn lesser_of(
    best: Option<(Addr, Eid)>,
    after: Option<&Addr>,
    eid: &Eid,
    locators: &[Locator],
) -> Option<(Addr, Eid)>
    ensures { result ≡ fold lesser best (map (λ locator. (locator.addr, eid.now))
        (filter (is_named (option_copied after.entry)) locators.now)) }
{
    let [locator, others @ ..] = locators else {
        return best;
    };
    if !is_named(after, locator) {
        return lesser_of(best, after, eid, others);
    }
    lesser_of(lesser(best, (locator.addr, *eid)), after, eid, others)
}

fn is_named(after: Option<&Addr>, locator: &Locator) -> bool
    ensures { result ≡ is_named (option_copied after.entry) locator.now }
{
    locator.priority != 255 && comes_after(after, &locator.addr)
}

fn lesser(best: Option<(Addr, Eid)>, next: (Addr, Eid)) -> Option<(Addr, Eid)>
    ensures { result ≡ lesser best next }
{
    let Some(least) = best else {
        return Some(next);
    };
    if is_below(&next.0, &least.0) {
        return Some(next);
    }
    Some(least)
}
