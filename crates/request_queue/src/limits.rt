// The limits and times of Map-Requests.
ghost use Rattle.std.specs.Prelude.{◌≡◌};
ghost use Rattle.router_log.specs.Moments.{seconds};
ghost use Rattle.request_queue.specs.Limits.{first_retry_seconds, last_retry_seconds, request_seconds};
ghost use Rattle.request_queue.specs.declared.limits.TheConstants.{FIRST_RETRY, LAST_RETRY, LIFE};

pub use lisp_settings::{MOST_OPEN, MOST_REQUESTS};

/// How long a request is open, in nanoseconds (this router's choice).
pub const LIFE: u64 = 7_000_000_000;

/// How long after its first transmission a request is sent again, in nanoseconds (this router's
/// choice).
pub const FIRST_RETRY: u64 = 1_000_000_000;

/// How long after its first transmission a request is sent again the second time, which is the
/// last, in nanoseconds (this router's choice).
pub const LAST_RETRY: u64 = 3_000_000_000;

/// Law: the constants are the defined numbers.
pub fn limits_are()
    ensures life { LIFE ≡ seconds request_seconds }
    ensures first { FIRST_RETRY ≡ seconds first_retry_seconds }
    ensures last { LAST_RETRY ≡ seconds last_retry_seconds }
{}
