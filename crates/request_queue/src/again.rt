// Open requests that are sent again.
ghost use Rattle.std.specs.Prelude.{◌≡◌, ◌≤◌, ◌<◌, ◌+◌, min, true, IsTrue};
ghost use Rattle.request_queue.specs.Lists.{all_may_again, all_rest, rests};
ghost use Rattle.request_queue.specs.Queue.{sent_again};

use crate::Request;
use crate::limits::{FIRST_RETRY, LAST_RETRY};
use keyed_list::{Key, KeyedList};

// The moment before which a request isn't to be sent again, 2^64 - 1 where that never comes.
fn wake_of(request: &Request) -> u64
    ensures { (wake : _) → wake ≤ result → rests wake request.now ≡ true }
{
    if request.sent_again == 0 {
        return request.start.saturating_add(FIRST_RETRY);
    }
    if request.sent_again == 1 {
        return request.start.saturating_add(LAST_RETRY);
    }
    u64::MAX
}

/// The moment before which none of the requests is to be sent again.
pub(crate) fn least_wake(requests: &KeyedList<Request>) -> u64
    ensures { all_rest result requests.now.items ≡ true }
{
    let mut wake = u64::MAX;
    for index in 0..requests.len() {
        match requests.get(index) {
            Some(request) => wake = wake.min(wake_of(request)),
            None => unreachable!(),
        }
    }
    wake
}

fn again(request: &Request) -> Request
    ensures { result ≡ record request.now { sent_again = min (request.now.sent_again + 1) 255 } }
{
    Request {
        sent_again: request.sent_again.saturating_add(1),
        ..*request
    }
}

/// Marks the request with that nonce as sent once more.
pub(crate) fn send_each_again(nonce: u64, requests: &mut KeyedList<Request>)
    requires { IsTrue (all_may_again nonce requests.old.items) }
    ensures items { requests.new.items ≡ sent_again nonce requests.old.items }
    ensures room { requests.new.room ≡ requests.old.room }
    ensures places { requests.new.places ≡ requests.old.places }
{
    requests.change(&Key::nonce(nonce), |request| again(request));
}
