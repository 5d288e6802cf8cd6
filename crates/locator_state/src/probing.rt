// Probes in code: which of them count, which one is meant, and what becomes of open ones.
ghost use Rattle.std.specs.Prelude.{◌≡◌, ◌≤◌, ◌<◌, ◌+◌, ◌&&◌, ◌==◌, [], ◌∷◌, ◌++◌, length, slice_get, IfSome};
ghost use Rattle.std.specs.Option.{option_copied};
ghost use Rattle.mapping_records.specs.Eids.{same_address};
ghost use Rattle.router_log.specs.declared.kept.ProbeState.TheVariants.{Lost, Open};
ghost use Rattle.locator_state.specs.Lists.{last_where};
ghost use Rattle.locator_state.specs.Probes.{counting_probes, is_answered, is_judged, probe_counts, settle, settle_nonce, settled, up_by};

use crate::limits::{PROBE_LIFE, PROBE_WAIT};
use ip_headers::Addr;
use keyed_list::{Key, KeyedList};
use router_log::{Probe, ProbeState};

pub(crate) fn probe_counts(now: u64, probe: &Probe) -> bool
    ensures { result ≡ probe_counts now probe.now }
{
    now.saturating_sub(probe.moment) < PROBE_LIFE
}

fn is_answered(probe: &Probe) -> bool
    ensures { result ≡ is_answered probe.now }
{
    match probe.state {
        ProbeState::Answered => true,
        ProbeState::Open | ProbeState::Lost => false,
    }
}

pub(crate) fn is_judged(now: u64, probe: &Probe) -> bool
    ensures { result ≡ is_judged now probe.now }
{
    is_answered(probe) || now.saturating_sub(probe.moment) >= PROBE_WAIT
}

pub(crate) fn up_by(now: u64, last: Option<&Probe>) -> bool
    ensures { result ≡ up_by now (option_copied last.entry) }
{
    match last {
        None => true,
        Some(probe) => is_answered(probe) || !probe_counts(now, probe),
    }
}

/// The last probe with that nonce.
pub(crate) fn last_with(nonce: u64, probes: &KeyedList<Probe>) -> Option<&Probe>
    ensures { option_copied result
        ≡ last_where (λ probe. probe.nonce == nonce) probes.now.items }
{
    probes.last(&Key::nonce(nonce), |_| true)
}

/// The last probe of a locator.
pub(crate) fn last_of<'a>(rloc: &Addr, probes: &'a KeyedList<Probe>) -> Option<&'a Probe>
    ensures { option_copied result
        ≡ last_where (λ probe. same_address probe.rloc rloc.now) probes.now.items }
{
    if probes.len() == 0 {
        return None;
    }
    probes.last(&Key::locator(*rloc), |_| true)
}

/// The last probe of the locator of the probe at a place, or None behind the end. It is found
/// without a search.
pub(crate) fn last_like(place: usize, probes: &KeyedList<Probe>) -> Option<&Probe>
    ensures { IfSome (slice_get probes.now.items place) (λ probe. option_copied result
        ≡ last_where (λ other. same_address other.rloc probe.rloc) probes.now.items) }
{
    if place >= probes.len() {
        return None;
    }
    probes.get(probes.last_like(place))
}

/// The last probe of a locator that is answered or has waited for `PROBE_WAIT`.
pub(crate) fn last_judged<'a>(
    now: u64,
    rloc: &Addr,
    probes: &'a KeyedList<Probe>,
) -> Option<&'a Probe>
    ensures { option_copied result
        ≡ last_where (λ probe. same_address probe.rloc rloc.now && is_judged now probe)
        probes.now.items }
{
    // Mostly no probe is kept, and each data packet looks here.
    if probes.len() == 0 {
        return None;
    }
    probes.last(&Key::locator(*rloc), |probe| is_judged(now, probe))
}

fn settled(state: ProbeState, old: ProbeState) -> ProbeState
    ensures { result ≡ settled state old }
{
    match old {
        ProbeState::Open => state,
        ProbeState::Answered => ProbeState::Answered,
        ProbeState::Lost => ProbeState::Lost,
    }
}

fn settle(state: ProbeState, probe: &Probe) -> Probe
    ensures { result ≡ settle state probe.now }
{
    Probe {
        state: settled(state, probe.state),
        ..*probe
    }
}

/// Gives the open probes with that nonce another state.
pub(crate) fn settle_nonce(state: ProbeState, nonce: u64, probes: &mut KeyedList<Probe>)
    ensures items { probes.new.items ≡ settle_nonce state nonce probes.old.items }
    ensures len { length probes.new.items ≡ length probes.old.items }
    ensures room { probes.new.room ≡ probes.old.room }
    ensures places { probes.new.places ≡ probes.old.places }
{
    probes.change(&Key::nonce(nonce), |probe| settle(state, probe));
}

/// Adds an open probe, behind which open ones with its nonce are lost. Takes no memory.
pub(crate) fn push_probe(moment: u64, rloc: Addr, nonce: u64, probes: &mut KeyedList<Probe>)
    requires { 0 < probes.old.room }
    ensures items { probes.new.items ≡ settle_nonce Lost nonce probes.old.items
        ++ record { moment = moment; rloc = rloc; nonce = nonce; state = Open } ∷ [] }
    ensures room { probes.new.room + 1 ≡ probes.old.room }
    ensures places { probes.new.places ≡ probes.old.places }
{
    let probe = Probe {
        moment,
        rloc,
        nonce,
        state: ProbeState::Open,
    };
    probes.push_changing(probe, |earlier| settle(ProbeState::Lost, earlier));
}

/// Takes away probes that count no longer at a moment.
pub(crate) fn drop_probes(now: u64, probes: &mut KeyedList<Probe>)
    ensures items { probes.new.items ≡ counting_probes now probes.old.items }
    ensures room { probes.old.room ≤ probes.new.room }
    ensures total { length probes.new.items + probes.new.room
        ≤ length probes.old.items + probes.old.room }
    ensures places { probes.new.places ≡ probes.old.places }
{
    probes.purge(now, PROBE_LIFE);
}
