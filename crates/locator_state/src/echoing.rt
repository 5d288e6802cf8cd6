// Echoed nonces in code: which of them count, and which one is the last of a locator.
ghost use Rattle.std.specs.Prelude.{◌≡◌, ◌≤◌, ◌+◌, ◌&&◌, count_by, length, map, nat_lt, true};
ghost use Rattle.std.specs.List.{list_any};
ghost use Rattle.std.specs.Option.{option_copied};
ghost use Rattle.mapping_records.specs.Eids.{same_address};
ghost use Rattle.locator_state.specs.Limits.{most_starts, most_wishes};
ghost use Rattle.locator_state.specs.Lists.{last_where};
ghost use Rattle.locator_state.specs.Echoes.{answer_or, ask_or_plain, come_from, counting_starts, counting_wishes, data_due, echo_on, echo_up, echo_wanted, hear_from, is_deaf, is_on, is_other, last_start, start_counts, wish_counts};

use crate::limits::{ECHO_WAIT, MOST_STARTS, MOST_WISHES, START_LIFE, WISH_LIFE};
use ip_headers::Addr;
use keyed_list::{Key, KeyedList};
use router_log::{EchoOut, EchoStart, EchoWish};

fn start_counts(now: u64, start: &EchoStart) -> bool
    ensures { result ≡ start_counts now start.now }
{
    now.saturating_sub(start.moment) < START_LIFE
}

fn wish_counts(now: u64, wish: &EchoWish) -> bool
    ensures { result ≡ wish_counts now wish.now }
{
    now.saturating_sub(wish.moment) < WISH_LIFE
}

fn is_on(now: u64, start: &EchoStart) -> bool
    ensures { result ≡ is_on now start.now }
{
    now.saturating_sub(start.moment) < ECHO_WAIT && !start.heard
}

fn is_deaf(now: u64, start: &EchoStart) -> bool
    ensures { result ≡ is_deaf now start.now }
{
    now.saturating_sub(start.moment) >= ECHO_WAIT
        && now.saturating_sub(start.moment) < START_LIFE
        && !start.heard
        && start.came
}

/// The last echo that was requested of a locator.
fn last_start<'a>(rloc: &Addr, starts: &'a KeyedList<EchoStart>) -> Option<&'a EchoStart>
    ensures { option_copied result ≡ last_start starts.now.items rloc.now }
{
    // Mostly no echo is kept, and each data packet looks here.
    if starts.len() == 0 {
        return None;
    }
    starts.last(&Key::locator(*rloc), |_| true)
}

/// The last echo that a locator requested.
fn last_wish<'a>(rloc: &Addr, wishes: &'a KeyedList<EchoWish>) -> Option<&'a EchoWish>
    ensures { option_copied result
        ≡ last_where (λ wish. same_address wish.rloc rloc.now) wishes.now.items }
{
    // Mostly no echo is kept, and each data packet looks here.
    if wishes.len() == 0 {
        return None;
    }
    wishes.last(&Key::locator(*rloc), |_| true)
}

/// The nonce of the echo that is requested of a locator, or None where none is.
pub(crate) fn echo_on(now: u64, rloc: &Addr, starts: &KeyedList<EchoStart>) -> Option<u32>
    ensures { result ≡ echo_on now starts.now.items rloc.now }
{
    let start = last_start(rloc, starts)?;
    if is_on(now, start) {
        return Some(start.nonce);
    }
    None
}

/// Whether an echo is requested of a locator, and no packet came from it since.
pub(crate) fn data_due(now: u64, rloc: &Addr, starts: &KeyedList<EchoStart>) -> bool
    ensures { result ≡ data_due now starts.now.items rloc.now }
{
    match last_start(rloc, starts) {
        None => false,
        Some(start) => is_on(now, start) && !start.came,
    }
}

/// Whether the last echo that was requested of a locator leaves it usable.
pub(crate) fn echo_up(now: u64, rloc: &Addr, starts: &KeyedList<EchoStart>) -> bool
    ensures { result ≡ echo_up now starts.now.items rloc.now }
{
    match last_start(rloc, starts) {
        None => true,
        Some(start) => !is_deaf(now, start),
    }
}

/// The nonce that a locator wants echoed, or None where it wants none.
pub(crate) fn echo_wanted(now: u64, rloc: &Addr, wishes: &KeyedList<EchoWish>) -> Option<u32>
    ensures { result ≡ echo_wanted now wishes.now.items rloc.now }
{
    let wish = last_wish(rloc, wishes)?;
    if wish_counts(now, wish) {
        return Some(wish.nonce);
    }
    None
}

/// Whether a nonce differs from the one that a locator wants echoed.
pub(crate) fn is_other(nonce: u32, wanted: Option<u32>) -> bool
    ensures { result ≡ is_other nonce wanted }
{
    match wanted {
        None => true,
        Some(wanted) => wanted != nonce,
    }
}

/// Whether an echo that counts was requested of a locator.
pub(crate) fn is_asked(now: u64, rloc: &Addr, starts: &KeyedList<EchoStart>) -> bool
    ensures { result
        ≡ list_any (λ start. same_address start.rloc rloc.now && start_counts now start)
        starts.now.items }
{
    if starts.len() == 0 {
        return false;
    }
    starts
        .last(&Key::locator(*rloc), |start| start_counts(now, start))
        .is_some()
}

/// Whether fewer than `MOST_STARTS` requested echoes count.
pub(crate) fn few_starts(now: u64, starts: &KeyedList<EchoStart>) -> bool
    ensures { result ≡ nat_lt (count_by (start_counts now) starts.now.items) most_starts }
{
    starts.count(now, START_LIFE) < MOST_STARTS
}

/// Whether fewer than `MOST_WISHES` wanted echoes count.
pub(crate) fn few_wishes(now: u64, wishes: &KeyedList<EchoWish>) -> bool
    ensures { result ≡ nat_lt (count_by (wish_counts now) wishes.now.items) most_wishes }
{
    wishes.count(now, WISH_LIFE) < MOST_WISHES
}

/// Requests an echo where one is on, and is plain otherwise.
pub(crate) fn ask_or_plain(on: Option<u32>) -> EchoOut
    ensures { result ≡ ask_or_plain on }
{
    match on {
        None => EchoOut::Plain,
        Some(nonce) => EchoOut::Ask(nonce),
    }
}

/// Answers a wanted echo where there is one, and does the other thing otherwise.
pub(crate) fn answer_or(other: EchoOut, wanted: Option<u32>) -> EchoOut
    ensures { result ≡ answer_or other wanted }
{
    match wanted {
        None => other,
        Some(nonce) => EchoOut::Answer(nonce),
    }
}

fn heard(start: &EchoStart) -> EchoStart
    ensures { result ≡ record start.now { heard = true } }
{
    EchoStart {
        heard: true,
        ..*start
    }
}

fn come(start: &EchoStart) -> EchoStart
    ensures { result ≡ record start.now { came = true } }
{
    EchoStart {
        came: true,
        ..*start
    }
}

/// Marks the requested echoes of a locator as heard.
pub(crate) fn hear_all(rloc: &Addr, starts: &mut KeyedList<EchoStart>)
    ensures items { starts.new.items ≡ map (hear_from rloc.now) starts.old.items }
    ensures len { length starts.new.items ≡ length starts.old.items }
    ensures room { starts.new.room ≡ starts.old.room }
    ensures places { starts.new.places ≡ starts.old.places }
{
    starts.change(&Key::locator(*rloc), |start| heard(start));
}

/// Marks that a packet came from a locator, on its requested echoes.
pub(crate) fn come_all(rloc: &Addr, starts: &mut KeyedList<EchoStart>)
    ensures items { starts.new.items ≡ map (come_from rloc.now) starts.old.items }
    ensures len { length starts.new.items ≡ length starts.old.items }
    ensures room { starts.new.room ≡ starts.old.room }
    ensures places { starts.new.places ≡ starts.old.places }
{
    starts.change(&Key::locator(*rloc), |start| come(start));
}

/// Takes away requested echoes that count no longer at a moment.
pub(crate) fn drop_starts(now: u64, starts: &mut KeyedList<EchoStart>)
    ensures items { starts.new.items ≡ counting_starts now starts.old.items }
    ensures room { starts.old.room ≤ starts.new.room }
    ensures total { length starts.new.items + starts.new.room
        ≤ length starts.old.items + starts.old.room }
    ensures places { starts.new.places ≡ starts.old.places }
{
    starts.purge(now, START_LIFE);
}

/// Takes away wanted echoes that count no longer at a moment.
pub(crate) fn drop_wishes(now: u64, wishes: &mut KeyedList<EchoWish>)
    ensures items { wishes.new.items ≡ counting_wishes now wishes.old.items }
    ensures room { wishes.old.room ≤ wishes.new.room }
    ensures total { length wishes.new.items + wishes.new.room
        ≤ length wishes.old.items + wishes.old.room }
    ensures places { wishes.new.places ≡ wishes.old.places }
{
    wishes.purge(now, WISH_LIFE);
}
