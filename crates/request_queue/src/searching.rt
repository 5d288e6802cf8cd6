// Which requests are open, and which one is meant.
ghost use Rattle.std.specs.Prelude.{◌≡◌, ◌≤◌, ◌&&◌, drop, length, slice_get, true};
ghost use Rattle.std.specs.Option.{option_copied};
ghost use Rattle.router_log.specs.Moments.{younger};
ghost use Rattle.request_queue.specs.Limits.{request_seconds};
ghost use Rattle.request_queue.specs.Lists.{are_distinct};
ghost use Rattle.request_queue.specs.Queue.{all_due, asked_after, due, is_waiting};

use crate::Request;
use crate::limits::{FIRST_RETRY, LAST_RETRY, LIFE};
use keyed_list::{Key, KeyedList};

/// Whether a request of that start is open at a moment.
pub(crate) fn waits(now: u64, start: u64) -> bool
    ensures { result ≡ younger now request_seconds start }
{
    now.saturating_sub(start) < LIFE
}

pub(crate) fn is_waiting(now: u64, request: &Request) -> bool
    ensures { result ≡ is_waiting now request.now }
{
    waits(now, request.start)
}

fn is_due(now: u64, request: &Request) -> bool
    ensures { result ≡ (is_waiting now request.now && due now request.now) }
{
    let age = now.saturating_sub(request.start);
    is_waiting(now, request)
        && (request.sent_again == 0 && age >= FIRST_RETRY
            || request.sent_again == 1 && age >= LAST_RETRY)
}

/// The first open request that is to be sent again, from a place on.
pub(crate) fn first_due(now: u64, from: usize, requests: &KeyedList<Request>) -> Option<&Request>
    requires { from ≤ length requests.now.items }
    ensures { option_copied result ≡ slice_get (all_due now (drop from requests.now.items)) 0 }
{
    for index in from..requests.len() {
        match requests.get(index) {
            Some(request) => {
                if is_due(now, request) {
                    return Some(request);
                }
            }
            None => unreachable!(),
        }
    }
    None
}

/// The place of the first request made after the one with a nonce; without a nonce, of the first of
/// all.
pub(crate) fn place_after(after: Option<u64>, requests: &KeyedList<Request>) -> usize
    requires { are_distinct requests.now.items ≡ true }
    ensures after { drop result requests.now.items ≡ asked_after after requests.now.items }
    ensures within { result ≤ length requests.now.items }
{
    let Some(nonce) = after else {
        return 0;
    };
    let end = requests.len();
    match requests.place(&Key::nonce(nonce)) {
        Some(place) => place + 1,
        None => end,
    }
}
