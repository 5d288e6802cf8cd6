// The terms by which requests of an instance are counted.
ghost use Rattle.std.specs.Prelude.{◌≡◌};
ghost use Rattle.request_queue.specs.Terms.{term_of};

use crate::Request;
use ordered_set::Ordered;
use std::cmp::Ordering;

/// The term of a request, which no other request has.
#[derive(Clone, Copy, Debug, PartialEq, Eq, Drop)]
pub(crate) struct Term {
    pub iid: u32,
    /// The moment of the request's first transmission, in nanoseconds.
    pub start: u64,
    pub nonce: u64,
}

impl Ordered for Term {
    ghost use Rattle.request_queue.specs.Terms.{term_order, term_order-total};

    ghost order = { term_order };

    ghost is_total = { term_order-total };

    fn compare(&self, other: &Self) -> Ordering {
        let by_instance = self.iid.cmp(&other.iid);
        by_instance
            .then_with(|| self.start.cmp(&other.start))
            .then_with(|| self.nonce.cmp(&other.nonce))
    }
}

pub(crate) fn term_of(request: &Request) -> Term
    ensures { result ≡ term_of request.now }
{
    Term {
        iid: request.eid.iid,
        start: request.start,
        nonce: request.nonce,
    }
}
