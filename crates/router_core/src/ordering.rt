// Whose turn it is to be probed (RFC 9301, section 7.1), found without a look at all locators: those
// without a probe in order of address, the others in the order of their probes.
ghost use Rattle.std.specs.Prelude.{◌≡◌, ◌≤◌, ◌<◌, ◌-◌, ◌&&◌, false, None, Some, All, [], true, IsTrue, IfSome, find, is_none, is_some, nat_lt, option_map, slice_get, vec_capacity, vec_len};
ghost use Rattle.std.specs.Option.{option_map_or};
ghost use Rattle.ip_headers.specs.Addr.{IsAddr};
ghost use Rattle.lisp_settings.specs.declared.settings.Settings.{Settings as SettingsValue};
ghost use Rattle.locator_state.specs.Limits.{most_targets};
ghost use Rattle.locator_state.specs.Probes.{last_probe};
ghost use Rattle.locator_state.specs.Turns.{has_rested, turn_of};
ghost use Rattle.mapping_records.specs.Eids.{same_address};
ghost use Rattle.router_model.specs.Parts.{view_in};
ghost use Rattle.router_model.specs.Tick.{is_told, next_targets};
ghost use Rattle.router_core.specs.Ticking.{HasSender};
ghost use Rattle.router_core.specs.Turning.{AreChosen, AreFresh, ArePlaced, AreTurned, IsNext, IsPlaced, SuitNames, eligible, is_covered, names_at};
ghost use Rattle.router_core.specs.declared.turns.Covered.TheVariants.{Everything};

use crate::Table;
use crate::site::Site;
use crate::turns::{Covered, Turns, below, lowered, no_turns};
use ip_headers::{Addr, same_address};
use locator_state::{MOST_TARGETS, PROBE_REST, Target, has_rested, offer};
use mapping_records::Eid;

impl Table {
    /// Whether it is known that no locator is to be probed at a moment.
    pub(crate) fn is_at_rest(&self, m: u64) -> bool
        requires { self.now.parts.now ≤ m }
        ensures { IsTrue result → (settings : SettingsValue)
            → settings.locators ≡ self.now.parts.own
            → next_targets settings (view_in self.now.parts m) ≡ [] }
    {
        if !is_all(self.turns.covered) {
            return false;
        }
        if self.turns.walked > m {
            return false;
        }
        m.saturating_sub(self.turns.since) < PROBE_REST
    }

    /// Finds the locators that are to be probed at a moment, and notes what is known of turns.
    pub(crate) fn find_turns(&mut self, site: &Site<'_>, m: u64, first: &mut Vec<Target>)
        requires own { site.now.locators ≡ self.old.parts.own }
        requires now { self.old.parts.now ≤ m }
        requires none { first.old.items ≡ [] }
        requires room { most_targets < vec_capacity first.old }
        ensures same { self.new ≡ self.old }
        ensures items { first.new.items ≡ next_targets site.now (view_in self.old.parts m) }
        ensures few { vec_len first.new ≤ most_targets }
        ensures senders { All (HasSender site.now) first.new.items }
    {
        let turns = self.known_at(site, m);
        self.find_fresh(site, m, turns, first);
        self.find_rested(site, m, turns, first);
        self.turns = turns;
    }

    // What is known of turns, moved on to a moment and past the locators whose turn it isn't.
    fn known_at(&self, site: &Site<'_>, m: u64) -> Turns
        requires own { site.now.locators ≡ self.now.parts.own }
        requires now { self.now.parts.now ≤ m }
        ensures walked { result.walked ≡ m }
        ensures known { SuitNames self.now.parts.own result self.now.parts.observed.probes
            (names_at m self.now.parts.mappings) }
    {
        let turns = self.known_before(m);
        self.pass_fresh(site, m, self.pass_rested(site, m, turns))
    }

    // What is known of turns, or nothing where that is of a later moment.
    fn known_before(&self, m: u64) -> Turns
        ensures walked { result.walked ≤ m }
        ensures known { AreTurned self.now.parts.own result self.now.parts.observed.probes
            self.now.parts.mappings }
    {
        if self.turns.walked <= m {
            return self.turns;
        }
        no_turns()
    }

    // Goes from the first probe that isn't older than is known to the first that is the last one of
    // a locator and counts at a moment. Locators whose last probe counts no longer are uncovered.
    fn pass_rested(&self, site: &Site<'_>, m: u64, turns: Turns) -> Turns
        requires own { site.now.locators ≡ self.now.parts.own }
        requires now { self.now.parts.now ≤ m }
        requires walked { turns.walked ≤ m }
        requires known { AreTurned self.now.parts.own turns self.now.parts.observed.probes
            self.now.parts.mappings }
        ensures walked { result.walked ≡ m }
        ensures known { SuitNames self.now.parts.own result self.now.parts.observed.probes
            (names_at m self.now.parts.mappings) }
    {
        let mut covered = turns.covered;
        let mut place = self.locators.probes_before(turns.since);
        while let Some((moment, rloc)) = self.locators.probe_at(place) {
            match self.locators.last_probe_at(m, place) {
                None => covered = lowered(covered, &rloc),
                Some(last) => {
                    if last == moment && self.is_live(site, m, &rloc) {
                        return Turns {
                            covered,
                            since: moment,
                            walked: m,
                        };
                    }
                }
            }
            place += 1;
        }
        Turns {
            covered,
            since: m,
            walked: m,
        }
    }

    // Whether a locator is to be probed at all: an own locator of its family is up, it isn't an own
    // one, and a mapping names it that lasts at a moment.
    fn is_live(&self, site: &Site<'_>, m: u64, rloc: &Addr) -> bool
        requires { self.now.parts.now ≤ m }
        ensures { result ≡ (is_told site.now rloc.now
            && is_some (find (λ name. same_address rloc.now name.0)
            (names_at m self.now.parts.mappings))) }
    {
        site.is_told(*rloc) && self.least_eid(m, rloc).is_some()
    }

    // Goes from the first address that isn't covered to the first of a locator without a probe.
    fn pass_fresh(&self, site: &Site<'_>, m: u64, turns: Turns) -> Turns
        requires own { site.now.locators ≡ self.now.parts.own }
        requires now { self.now.parts.now ≤ m }
        requires walked { turns.walked ≡ m }
        requires known { SuitNames self.now.parts.own turns self.now.parts.observed.probes
            (names_at m self.now.parts.mappings) }
        ensures walked { result.walked ≡ m }
        ensures known { SuitNames self.now.parts.own result self.now.parts.observed.probes
            (names_at m self.now.parts.mappings) }
    {
        let mut covered = turns.covered;
        while let Some((rloc, _)) = self.next_name(m, covered) {
            if self.is_fresh(site, m, rloc) {
                return Turns { covered, ..turns };
            }
            covered = Covered::UpTo(rloc);
        }
        Turns {
            covered: Covered::Everything,
            ..turns
        }
    }

    // Whether a locator may be probed and has no probe that counts at a moment.
    fn is_fresh(&self, site: &Site<'_>, m: u64, rloc: Addr) -> bool
        ensures { result ≡ (is_told site.now rloc
            && is_none (last_probe m self.now.parts.observed.probes rloc)) }
    {
        site.is_told(rloc) && self.locators.last_probe(m, &rloc).is_none()
    }

    // Chooses the locators without a probe whose turn it is at a moment.
    fn find_fresh(&self, site: &Site<'_>, m: u64, turns: Turns, first: &mut Vec<Target>)
        requires own { site.now.locators ≡ self.now.parts.own }
        requires now { self.now.parts.now ≤ m }
        requires walked { turns.walked ≡ m }
        requires known { SuitNames self.now.parts.own turns self.now.parts.observed.probes
            (names_at m self.now.parts.mappings) }
        requires none { first.old.items ≡ [] }
        requires room { most_targets < vec_capacity first.old }
        ensures fresh { AreFresh (eligible site.now self.now.parts m) first.new.items }
        ensures capacity { vec_capacity first.old ≤ vec_capacity first.new }
    {
        let mut covered = turns.covered;
        while first.len() < MOST_TARGETS {
            let Some((rloc, eid)) = self.next_name(m, covered) else {
                return;
            };
            if self.is_fresh(site, m, rloc) {
                first.push_reserved(Target {
                    rloc,
                    eid,
                    last: None,
                });
            }
            covered = Covered::UpTo(rloc);
        }
    }

    // Chooses, with those without a probe, the locators that have rested whose turn it is at a
    // moment.
    fn find_rested(&self, site: &Site<'_>, m: u64, turns: Turns, first: &mut Vec<Target>)
        requires own { site.now.locators ≡ self.now.parts.own }
        requires now { self.now.parts.now ≤ m }
        requires walked { turns.walked ≡ m }
        requires known { SuitNames self.now.parts.own turns self.now.parts.observed.probes
            (names_at m self.now.parts.mappings) }
        requires fresh { AreFresh (eligible site.now self.now.parts m) first.old.items }
        requires room { most_targets < vec_capacity first.old }
        ensures placed { ArePlaced (eligible site.now self.now.parts m) first.new.items }
    {
        let mut place = self.locators.probes_before(turns.since);
        while let Some((moment, rloc)) = self.locators.probe_at(place) {
            if !has_rested(m, Some(moment)) || are_full_before(moment, first) {
                return;
            }
            self.offer_rested(site, m, place, (moment, rloc), first);
            place += 1;
        }
    }

    // Offers the locator of the probe at a place, which has rested, a place among the first, if that
    // probe is its last one, and it may be probed.
    fn offer_rested(
        &self,
        site: &Site<'_>,
        m: u64,
        place: usize,
        probe: (u64, Addr),
        first: &mut Vec<Target>,
    )
        requires now { self.now.parts.now ≤ m }
        requires here { Some probe ≡ option_map (λ probe. (probe.moment, probe.rloc))
            (slice_get self.now.parts.observed.probes place) }
        requires rested { has_rested m (Some probe.0) ≡ true }
        requires chosen { AreChosen (eligible site.now self.now.parts m) first.old.items }
        requires room { most_targets < vec_capacity first.old }
        ensures chosen { AreChosen (eligible site.now self.now.parts m) first.new.items }
        ensures stay { All (λ target. IsPlaced first.old.items target
            → IsPlaced first.new.items target) (eligible site.now self.now.parts m) }
        ensures here { All (λ target. same_address probe.1 target.rloc ≡ true
            → target.last ≡ Some probe.0 → IsPlaced first.new.items target)
            (eligible site.now self.now.parts m) }
        ensures capacity { vec_capacity first.old ≤ vec_capacity first.new }
    {
        let (moment, rloc) = probe;
        if !site.is_told(rloc) {
            return;
        }
        let Some(last) = self.locators.last_probe_at(m, place) else {
            return;
        };
        if last != moment {
            return;
        }
        let Some(eid) = self.least_eid(m, &rloc) else {
            return;
        };
        offer(
            Target {
                rloc,
                eid,
                last: Some(moment),
            },
            first,
        );
    }

    /// The least address that isn't covered of those that mappings name which last at a moment, and
    /// the least EID that names it.
    pub(crate) fn next_name(&self, m: u64, covered: Covered) -> Option<(Addr, Eid)>
        requires { self.now.parts.now ≤ m }
        ensures some { IfSome result (IsNext covered (names_at m self.now.parts.mappings)) }
        ensures none { result ≡ None → All (λ name. is_covered covered name.0 ≡ true)
            (names_at m self.now.parts.mappings) }
    {
        match covered {
            Covered::Nothing => self.cache.next_locator(m, None),
            Covered::UpTo(last) => self.cache.next_locator(m, Some(&last)),
            Covered::Everything => None,
        }
    }

    // The least EID of the mappings that last at a moment and name an address.
    fn least_eid(&self, m: u64, rloc: &Addr) -> Option<Eid>
        requires { self.now.parts.now ≤ m }
        ensures { result ≡ option_map (λ name. name.1)
            (find (λ name. same_address rloc.now name.0) (names_at m self.now.parts.mappings)) }
    {
        let (next, eid) = self.next_name(m, below(rloc))?;
        fits_family(next);
        if !same_address(&next, rloc) {
            return None;
        }
        Some(eid)
    }
}

// Law: the number of an address fits its family.
fn fits_family(addr: Addr)
    ensures { IsAddr addr }
{
    match addr {
        Addr::V4(_) | Addr::V6(_) => {}
    }
}

fn is_all(covered: Covered) -> bool
    ensures { result ≡ true → covered ≡ Everything }
{
    match covered {
        Covered::Everything => true,
        Covered::Nothing | Covered::UpTo(_) => false,
    }
}

// Whether there are as many as are probed, and the last probe of each is older than a moment.
fn are_full_before(moment: u64, first: &[Target]) -> bool
    ensures { result ≡ option_map_or (λ target. nat_lt (turn_of target.last) (turn_of (Some moment)))
        (slice_get first.now (most_targets - 1)) false }
{
    match first.get(MOST_TARGETS - 1) {
        None => false,
        Some(target) => match target.last {
            None => true,
            Some(last) => last < moment,
        },
    }
}
