// Questions about locators at a moment.
ghost use Rattle.std.specs.Prelude.{◌≡◌, ◌<◌, ◌/◌, IfSome, count_by, nat_lt, option_map, slice_get};
ghost use Rattle.locator_state.specs.Echoes.{data_due, echo_on, echo_out, may_start, may_want, wanted};
ghost use Rattle.locator_state.specs.Limits.{most_probes};
ghost use Rattle.locator_state.specs.Observed.{is_up};
ghost use Rattle.locator_state.specs.Probes.{last_probe, probe_count, probe_open};
ghost use Rattle.locator_state.specs.Solicits.{may_solicit, solicited};

use crate::echoing::{
    answer_or, ask_or_plain, data_due, echo_on, echo_up, echo_wanted, few_starts, few_wishes,
    is_asked, is_other,
};
use crate::limits::{MOST_PROBES, PROBE_LIFE};
use crate::probing::{is_judged, last_judged, last_like, last_of, last_with, probe_counts, up_by};
use crate::soliciting::{few_solicits, is_solicited};
use crate::{Addr, EchoOut, Eid, LocatorState};

impl LocatorState {
    /// The locator of the open probe with that nonce, or None where there is none. A probe is open
    /// for `PROBE_WAIT`.
    pub fn probe_open(&self, m: u64, nonce: u64) -> Option<Addr>
        ensures { result ≡ probe_open m self.now.observed.probes nonce }
    {
        let probe = last_with(nonce, &self.probes)?;
        if is_judged(m, probe) {
            return None;
        }
        Some(probe.rloc)
    }

    /// The moment of the last probe of a locator in nanoseconds, or None where none counts.
    pub fn last_probe(&self, m: u64, rloc: &Addr) -> Option<u64>
        ensures { result ≡ last_probe m self.now.observed.probes rloc.now }
    {
        let probe = last_of(rloc, &self.probes)?;
        if probe_counts(m, probe) {
            return Some(probe.moment);
        }
        None
    }

    /// The moment of the last probe of the locator of the probe at a place, in nanoseconds, or None
    /// where that one doesn't count. It is found without a search.
    pub fn last_probe_at(&self, m: u64, place: usize) -> Option<u64>
        ensures { IfSome (slice_get self.now.observed.probes place)
            (λ probe. result ≡ last_probe m self.now.observed.probes probe.rloc) }
    {
        let probe = last_like(place, &self.probes)?;
        if probe_counts(m, probe) {
            return Some(probe.moment);
        }
        None
    }

    /// The moment and the locator of the probe at a place, the oldest at 0, or None behind the end.
    pub fn probe_at(&self, place: usize) -> Option<(u64, Addr)>
        ensures { result ≡ option_map (λ probe. (probe.moment, probe.rloc))
            (slice_get self.now.observed.probes place) }
    {
        match self.probes.get(place) {
            None => None,
            Some(probe) => Some((probe.moment, probe.rloc)),
        }
    }

    /// How many probes were sent before a moment.
    pub fn probes_before(&self, moment: u64) -> usize
        ensures { result ≡ count_by (λ probe. nat_lt probe.moment moment)
            self.now.observed.probes }
    {
        // At that moment the others are younger than one nanosecond.
        self.probes.len() - self.probes.count(moment, 1)
    }

    /// How many probes count at a moment.
    pub fn probe_count(&self, m: u64) -> u32
        ensures { result ≡ probe_count m self.now.observed.probes }
    {
        // The length bounds their number.
        let _ = self.probes.len();
        self.probes.count(m, PROBE_LIFE) as u32
    }

    /// Whether fewer than `MOST_PROBES` probes count at a moment.
    pub fn may_probe(&self, m: u64) -> bool
        ensures { result ≡ nat_lt (probe_count m self.now.observed.probes) most_probes }
    {
        self.probes.len() < MOST_PROBES || self.probes.count(m, PROBE_LIFE) < MOST_PROBES
    }

    /// The nonce of the echo that is requested of a locator, for `ECHO_WAIT` and until it is heard;
    /// None where none is.
    pub fn echo_on(&self, m: u64, rloc: &Addr) -> Option<u32>
        ensures { result ≡ echo_on m self.now.observed.starts rloc.now }
    {
        echo_on(m, rloc, &self.starts)
    }

    /// Whether an echo is requested of a locator, and no packet came from it since.
    pub fn data_due(&self, m: u64, rloc: &Addr) -> bool
        ensures { result ≡ data_due m self.now.observed.starts rloc.now }
    {
        data_due(m, rloc, &self.starts)
    }

    /// How the header of a packet to a locator deals with echoes: an answer goes before a request.
    pub fn echo_out(&self, m: u64, rloc: &Addr) -> EchoOut
        ensures { result
            ≡ echo_out m self.now.observed.starts self.now.observed.wishes rloc.now }
    {
        answer_or(
            ask_or_plain(echo_on(m, rloc, &self.starts)),
            echo_wanted(m, rloc, &self.wishes),
        )
    }

    /// Whether an echo may be requested of a locator: none was for `START_LIFE`, the locator wants
    /// none itself, and fewer than `MOST_STARTS` are requested.
    pub fn may_start(&self, m: u64, rloc: &Addr) -> bool
        ensures { result
            ≡ may_start m self.now.observed.starts self.now.observed.wishes rloc.now }
    {
        !is_asked(m, rloc, &self.starts)
            && echo_wanted(m, rloc, &self.wishes).is_none()
            && few_starts(m, &self.starts)
    }

    /// Whether it may be noted that a locator wants this nonce: it doesn't want it already, and
    /// fewer than `MOST_WISHES` are wanted.
    pub fn may_want(&self, m: u64, rloc: &Addr, nonce: u32) -> bool
        ensures { result ≡ may_want m self.now.observed.wishes rloc.now nonce }
    {
        is_other(nonce, echo_wanted(m, rloc, &self.wishes)) && few_wishes(m, &self.wishes)
    }

    /// Whether a locator may be solicited for an EID: it wasn't for `SOLICIT_LIFE`, and fewer than
    /// `MOST_SOLICITS` solicitations count.
    pub fn may_solicit(&self, m: u64, rloc: &Addr, eid: &Eid) -> bool
        ensures { result ≡ may_solicit m self.now.observed.solicits rloc.now eid.now }
    {
        !is_solicited(m, rloc, eid, &self.solicits) && few_solicits(m, &self.solicits)
    }

    /// Whether a locator may be used, as far as probes and echoes show: the last judged probe was
    /// answered, and packets came with the echo that was requested. A probe is judged once it is
    /// answered or `PROBE_WAIT` old, until it is `PROBE_LIFE` old; an echo from `ECHO_WAIT` to
    /// `START_LIFE`.
    pub fn up(&self, m: u64, rloc: &Addr) -> bool
        ensures { result ≡ is_up m self.now.observed rloc.now }
    {
        up_by(m, last_judged(m, rloc, &self.probes)) && echo_up(m, rloc, &self.starts)
    }
}
