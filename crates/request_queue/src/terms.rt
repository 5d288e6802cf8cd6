// The terms of requests, in a set.
ghost use Rattle.std.specs.Prelude.{◌≡◌, ◌≤◌, ◌<◌, ◌+◌, ◌++◌, ◌∷◌, [], List, Some, length, slice_get, true, ℕ};
ghost use Rattle.std.specs.List.{remove};
ghost use Rattle.request_queue.specs.Lists.{are_distinct};
ghost use Rattle.request_queue.specs.Queue.{open_in, waiting};
ghost use Rattle.request_queue.specs.Terms.{AreTerms, is_past, is_upto};
ghost use Rattle.request_queue.specs.declared.request.Request.{Request};

use crate::Request;
use crate::searching::waits;
use crate::term::{Term, term_of};
use ordered_set::OrderedSet;

/// Puts the term of a request into the set. Takes no memory.
pub(crate) fn add_term(request: &Request, terms: &mut OrderedSet<Term>)
    requires { 0 < terms.old.spare }
    ensures terms { (requests : List Request) → AreTerms terms.old.keys requests
        → AreTerms terms.new.keys (requests ++ request.now ∷ []) }
    ensures spare { terms.old.spare ≤ terms.new.spare + 1 }
    ensures total { length terms.new.keys + terms.new.spare
        ≡ length terms.old.keys + terms.old.spare }
{
    terms.insert(term_of(request));
}

/// Takes the term of a request out of the set. Takes no memory.
pub(crate) fn drop_term(request: &Request, terms: &mut OrderedSet<Term>)
    ensures terms { (requests : List Request) (place : ℕ) → are_distinct requests ≡ true
        → slice_get requests place ≡ Some request.now → AreTerms terms.old.keys requests
        → AreTerms terms.new.keys (remove requests place) }
    ensures spare { terms.old.spare ≤ terms.new.spare }
    ensures one { terms.new.spare ≤ terms.old.spare + 1 }
    ensures total { length terms.new.keys + terms.new.spare
        ≡ length terms.old.keys + terms.old.spare }
{
    terms.remove(&term_of(request));
}

// Whether a term stands before those of the instance's open requests.
fn is_past(m: u64, iid: u32, term: &Term) -> bool
    ensures { result ≡ is_past m iid term.now }
{
    term.iid < iid || term.iid == iid && !waits(m, term.start)
}

fn is_upto(iid: u32, term: &Term) -> bool
    ensures { result ≡ is_upto iid term.now }
{
    term.iid <= iid
}

/// How many requests of an instance are open. Terms are in order, so that halving finds the number.
pub(crate) fn open_in(m: u64, iid: u32, terms: &OrderedSet<Term>) -> usize
    ensures { (requests : List Request) → are_distinct requests ≡ true
        → AreTerms terms.now.keys requests → result ≡ open_in iid (waiting m requests) }
{
    // The call of `len` brings the fact that terms ascend.
    let _ = terms.len();
    let first = terms.place(|term| is_past(m, iid, term));
    let end = terms.place(|term| is_upto(iid, term));
    end - first
}
