// The queue: requests in asking order, what finds them, and how many of an instance may wait.
ghost use Rattle.std.specs.Prelude.{◌≡◌, ◌≤◌, ◌<◌, ◌+◌, ◌*◌, ◌^◌, ◌↔◌, [], ◌∷◌, true, nat_lt, length, max, slice_get, Err, Some, IfOk, IfSome, IsTrue, OnOk, OnErr};
ghost use Rattle.std.specs.Option.{option_copied};
ghost use Rattle.lisp_settings.specs.Instances.{AreLimits, requests_in};
ghost use Rattle.prefix_table.specs.Limits.{most_nodes};
ghost use Rattle.request_queue.specs.Queue.{all_due, asked, asked_after, behind, covered, may_send_again, open_in, sent_again, waiting, with_nonce, without_nonce};
ghost use Rattle.request_queue.specs.Limits.{most_open, most_reserved};
ghost use Rattle.request_queue.specs.Lists.{are_distinct};
ghost use Rattle.request_queue.specs.declared.fault.AskFault.TheVariants.{Memory, QueueFull};

use crate::again::{least_wake, send_each_again};
use crate::eids::is_covered;
use crate::index::{Index, add_request, count_found, drop_request};
use crate::limits::{FIRST_RETRY, LIFE};
use crate::searching::{first_due, is_waiting, place_after};
use crate::terms::open_in;
use crate::{AskFault, NoMemory, Reads, Request};
use ip_headers::Addr;
use keyed_list::{Key, KeyedList};
use lisp_settings::Limits;
use mapping_records::Eid;
use std::alloc::Global;
use std::marker::Model;

/// Requests in the order in which they were made. One is kept until it is answered, until another
/// with its nonce is made, or until a purge at a moment at which it is no longer open. A question
/// at a moment considers only requests that are open then.
#[derive(Drop)]
pub struct RequestQueue {
    requests: KeyedList<Request>,
    index: Index,
    // How many requests of each instance may be open.
    limits: Limits,
    // Before this moment no request is to be sent again.
    wake: u64,
    // For copies.
    alloc: Global,
}

impl Model for RequestQueue {
    ghost use Rattle.std.specs.Prelude.{◌≡◌, ◌+◌, ◌-◌, ◌*◌, length, max, min, true};
    ghost use Rattle.request_queue.specs.Found.{AreFound, kept_of, least_of, places_of};
    ghost use Rattle.request_queue.specs.Lists.{KeepsLimits, all_rest, are_distinct};
    ghost use Rattle.request_queue.specs.Queue.{Queue};

    ghost Value = { Queue };

    ghost view = { λ queue. record {
      requests = queue.requests.items;
      spare = min queue.requests.room (least_of queue.index - length queue.requests.items);
      places = max queue.requests.places (2 * places_of queue.index);
      kept = queue.requests.kept + (kept_of queue.index + length queue.limits);
      limits = queue.limits;
    } };

    ghost invariant = { λ queue. KeepsLimits queue.limits queue.requests.items
        × ((all_rest queue.wake queue.requests.items ≡ true)
        × ((are_distinct queue.requests.items ≡ true)
        × AreFound queue.index queue.requests.items)) };
}

impl RequestQueue {
    /// A queue without requests, with the limits of the instances.
    pub fn new(alloc: Global, limits: &Limits) -> Result<RequestQueue, NoMemory>
        ensures requests { IfOk result (λ queue. queue.requests ≡ []) }
        ensures spare { IfOk result (λ queue. queue.spare ≡ 0) }
        ensures places { IfOk result (λ queue. queue.places ≡ 0) }
        ensures limits { IfOk result (λ queue. queue.limits ≡ limits.now) }
    {
        let limits = limits.copy(alloc)?;
        Ok(RequestQueue {
            requests: KeyedList::new(alloc),
            index: Index::new(alloc),
            limits,
            wake: u64::MAX,
            alloc,
        })
    }

    /// A queue of its own with the same requests, and with as much room.
    pub fn copy(&self) -> Result<RequestQueue, NoMemory>
        ensures { IfOk result (λ copy. copy ≡ self.now) }
    {
        let alloc = self.alloc;
        let limits = self.limits.copy(alloc)?;
        let requests = self.requests.copy()?;
        let index = self.index.copy()?;
        Ok(RequestQueue {
            requests,
            index,
            limits,
            wake: self.wake,
            alloc,
        })
    }

    /// Makes room for `n` further requests.
    pub fn reserve(&mut self, n: u32) -> Result<(), NoMemory>
        requires { n ≤ most_reserved }
        ensures requests { self.new.requests ≡ self.old.requests }
        ensures spare { self.old.spare ≤ self.new.spare }
        ensures at_most { self.new.spare ≤ max self.old.spare n }
        ensures ok { OnOk result (n ≤ self.new.spare) }
        ensures memory { OnErr result (self.old.spare < n) }
        ensures places { self.new.places
            ≤ max self.old.places (2 * (length self.old.requests + n)) }
        ensures limits { self.new.limits ≡ self.old.limits }
    {
        if n == 0 {
            return Ok(());
        }
        // There are no more EIDs and terms than requests, and these are few.
        let _ = self.len();
        let len = count_found(&self.requests, &self.index);
        self.requests.reserve(n)?;
        self.index.reserve(len as u32 + n)
    }

    /// How many requests are kept. No two have one nonce. All lists behind them have at most 9
    /// items for each key for which there is place, and one for each limit.
    pub fn len(&self) -> usize
        ensures len { result ≡ length self.now.requests }
        ensures most { result ≤ most_open }
        ensures distinct { are_distinct self.now.requests ≡ true }
        ensures tied { 2 * (result + self.now.spare) ≤ self.now.places }
        ensures kept { self.now.kept ≤ 9 * self.now.places + length self.now.limits }
        ensures limits { AreLimits self.now.limits }
    {
        // The lengths bound what is kept, and the limits how many requests may be open.
        let _ = (self.index.eids.len(), self.index.terms.len());
        let _ = self.limits.as_slice();
        self.requests.len()
    }

    /// Takes away requests that are no longer open at a moment.
    pub fn purge(&mut self, m: u64)
        ensures requests { self.new.requests ≡ waiting m self.old.requests }
        ensures spare { self.old.spare ≤ self.new.spare }
        ensures total { length self.new.requests + self.new.spare
            ≤ length self.old.requests + self.old.spare }
        ensures places { self.new.places ≤ self.old.places }
        ensures limits { self.new.limits ≡ self.old.limits }
    {
        while let Some(place) = self.requests.old(m, LIFE) {
            drop_request(place, &mut self.requests, &mut self.index);
        }
    }

    /// Adds a request at the end, in place of the one with its nonce. Where it is refused, only the
    /// purge has taken place.
    pub fn ask(
        &mut self,
        m: u64,
        eid: Eid,
        source: Option<Addr>,
        invoked: bool,
        nonce: u64,
    ) -> Result<(), AskFault>
        ensures ok { OnOk result (self.new.requests
            ≡ asked m eid source invoked nonce self.old.requests) }
        ensures err { OnErr result (self.new.requests ≡ waiting m self.old.requests) }
        ensures full { (result ≡ Err QueueFull)
            ↔ (requests_in self.old.limits eid.iid ≤ open_in eid.iid (waiting m self.old.requests)) }
        ensures memory { result ≡ Err Memory → self.old.spare ≡ 0 }
        ensures spare { self.old.spare ≤ self.new.spare + 1 }
        ensures total { length self.new.requests + self.new.spare
            ≤ max (length self.old.requests + self.old.spare)
            (length (waiting m self.old.requests) + 1) }
        ensures places { self.new.places
            ≤ max self.old.places (2 * (length self.old.requests + 1)) }
        ensures limits { self.new.limits ≡ self.old.limits }
    {
        self.purge(m);
        if !self.has_place_in(m, eid.iid) {
            return Err(AskFault::QueueFull);
        }
        self.reserve(1)?;
        self.answer(nonce);
        let request = Request {
            eid,
            source,
            invoked,
            nonce,
            start: m,
            sent_again: 0,
        };
        add_request(request, &mut self.requests, &mut self.index);
        self.wake = self.wake.min(m.saturating_add(FIRST_RETRY));
        Ok(())
    }

    /// Takes the request with that nonce away.
    pub fn answer(&mut self, nonce: u64)
        ensures requests { self.new.requests ≡ without_nonce nonce self.old.requests }
        ensures spare { self.old.spare ≤ self.new.spare }
        ensures total { length self.new.requests + self.new.spare
            ≤ length self.old.requests + self.old.spare }
        ensures places { self.new.places ≤ self.old.places }
        ensures limits { self.new.limits ≡ self.old.limits }
    {
        while let Some(place) = self.requests.place(&Key::nonce(nonce)) {
            drop_request(place, &mut self.requests, &mut self.index);
        }
    }

    /// The open request with that nonce, or None where there is none.
    pub fn find(&self, m: u64, nonce: u64) -> Option<&Request>
        ensures { option_copied result ≡ with_nonce (waiting m self.now.requests) nonce }
    {
        self.requests
            .last(&Key::nonce(nonce), |request| is_waiting(m, request))
    }

    /// Whether an open request is for an EID that covers this one. Reads at most `MOST_NODES` nodes
    /// of the trie, and no request.
    pub fn open_for(&self, m: u64, eid: &Eid, reads: &mut Reads) -> bool
        requires { reads.old < 2 ^ 63 }
        ensures covered { result ≡ covered (waiting m self.now.requests) eid.now }
        ensures counted { reads.old ≤ reads.new }
        ensures bound { reads.new ≤ reads.old + most_nodes }
    {
        is_covered(m, eid, &self.index.eids, reads)
    }

    /// The first open request that is to be sent again and was made after the one with the nonce
    /// `after`; without a nonce, the first of all. Before the moment that `look_ahead` found it
    /// searches no list. The request may be handed to `retry`.
    pub fn next_due(&self, m: u64, after: Option<u64>) -> Option<&Request>
        ensures first { option_copied result
            ≡ slice_get (all_due m (asked_after after self.now.requests)) 0 }
        ensures rest { IfSome (option_copied result) (λ request.
            all_due m (asked_after after self.now.requests)
            ≡ request ∷ all_due m (asked_after (Some request.nonce) self.now.requests)) }
        ensures may { IfSome (option_copied result) (λ request.
            IsTrue (may_send_again request.nonce self.now.requests)) }
    {
        if m < self.wake {
            return None;
        }
        let from = place_after(after, &self.requests);
        first_due(m, from, &self.requests)
    }

    /// Marks the request with that nonce as sent once more.
    pub fn retry(&mut self, nonce: u64)
        requires { IsTrue (may_send_again nonce self.old.requests) }
        ensures requests { self.new.requests ≡ sent_again nonce self.old.requests }
        ensures behind { behind nonce self.new.requests ≡ behind nonce self.old.requests }
        ensures spare { self.new.spare ≡ self.old.spare }
        ensures places { self.new.places ≤ self.old.places }
        ensures limits { self.new.limits ≡ self.old.limits }
    {
        send_each_again(nonce, &mut self.requests);
    }

    /// Finds the next moment at which a request is to be sent again, so that `next_due` searches no
    /// list before it. What callers see stays.
    pub fn look_ahead(&mut self)
        ensures requests { self.new.requests ≡ self.old.requests }
        ensures spare { self.new.spare ≡ self.old.spare }
        ensures places { self.new.places ≤ self.old.places }
        ensures limits { self.new.limits ≡ self.old.limits }
    {
        self.wake = least_wake(&self.requests);
    }

    /// How many requests are open at a moment.
    pub fn open_count(&self, m: u64) -> u32
        ensures count { result ≡ length (waiting m self.now.requests) }
        ensures most { result ≤ most_open }
    {
        // The length bounds their number.
        let _ = self.len();
        self.requests.count(m, LIFE) as u32
    }

    /// How many requests for EIDs of an instance are open at a moment, found by halving.
    pub fn open_in(&self, m: u64, iid: u32) -> u32
        ensures { result ≡ open_in iid (waiting m self.now.requests) }
    {
        // The length bounds their number.
        let _ = self.len();
        open_in(m, iid, &self.index.terms) as u32
    }

    /// Whether one more request for an EID of an instance may be open at a moment.
    pub fn has_place_in(&self, m: u64, iid: u32) -> bool
        ensures { result ≡ nat_lt (open_in iid (waiting m self.now.requests))
            (requests_in self.now.limits iid) }
    {
        match self.limits.place(iid) {
            None => false,
            Some(place) => self.open_in(m, iid) < self.limits.as_slice()[place].requests,
        }
    }
}
