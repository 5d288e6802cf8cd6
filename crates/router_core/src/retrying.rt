// Requests that are due at a second, sent again (RFC 9301, section 5.2).
ghost use Rattle.std.specs.Prelude.{◌≡◌, ◌<◌, ◌≤◌, length, All, IfOk, vec_len};
ghost use Rattle.request_queue.specs.Queue.{all_due, waiting};
ghost use Rattle.router_log.specs.declared.entry.Entry.TheVariants.{Retried};
ghost use Rattle.router_model.specs.Changes.{each};
ghost use Rattle.router_model.specs.Limits.{most_open};
ghost use Rattle.router_model.specs.Parts.{table, with_entry};
ghost use Rattle.router_model.specs.Tick.{retried, retried_where};
ghost use Rattle.router_model.specs.Site.{reaches_resolver};
ghost use Rattle.router_core.specs.Steps.{HasTaken, MayTake, so_far};
ghost use Rattle.router_core.specs.Ticking.{AreOwed, IsOwed};

use crate::Table;
use crate::step::Step;
use octets::NoMemory;
use request_queue::Request;
use router_log::{Emit, Entry};

impl Table {
    /// The requests that are due to be sent again at a moment, in asking order.
    pub(crate) fn due_requests(&self, m: u64) -> Result<Vec<Request>, NoMemory>
        ensures items { IfOk result (λ due. due.items ≡ all_due m self.now.parts.requests) }
        ensures few { IfOk result (λ due. vec_len due ≤ most_open) }
        ensures owed { IfOk result (λ due.
            AreOwed (waiting m self.now.parts.requests) due.items) }
    {
        let mut due = Vec::new(self.alloc);
        due.reserve(self.queue.len())?;
        let mut after = None;
        while let Some(request) = self.queue.next_due(m, after) {
            due.push_reserved(*request);
            after = Some(request.nonce);
        }
        Ok(due)
    }

    /// Sends each of these requests again, where the resolver is reached.
    pub(crate) fn retry_due(&mut self, step: &mut Step<'_>, requests: &[Request])
        requires may { MayTake (length requests.now) self.old.parts step.old }
        requires due { requests.now ≡ all_due step.old.m self.old.parts.requests }
        requires owed { AreOwed (waiting step.old.m self.old.parts.requests) requests.now }
        ensures change { so_far self.new.parts step.new
            ≡ retried_where table step.old.site.now step.old.m (reaches_resolver step.old.site.now)
            (so_far self.old.parts step.old) }
        ensures taken { HasTaken (length requests.now) self.old.parts step.old self.new.parts step.new }
        ensures probe_room { self.old.probe_room ≤ self.new.probe_room }
    {
        if !step.site.reaches_resolver() {
            return;
        }
        self.retry_each(step, requests);
    }

    // Sends each of these requests again.
    fn retry_each(&mut self, step: &mut Step<'_>, requests: &[Request])
        requires may { MayTake (length requests.now) self.old.parts step.old }
        requires owed { AreOwed (waiting step.old.m self.old.parts.requests) requests.now }
        ensures change { so_far self.new.parts step.new
            ≡ each (retried table step.old.site.now step.old.m) requests.now
            (so_far self.old.parts step.old) }
        ensures taken { HasTaken (length requests.now) self.old.parts step.old self.new.parts step.new }
        ensures probe_room { self.old.probe_room ≤ self.new.probe_room }
    {
        let [request, others @ ..] = requests else {
            return;
        };
        self.retry_one(step, request);
        self.retry_each(step, others);
    }

    // Sends a request again, with its nonce.
    fn retry_one(&mut self, step: &mut Step<'_>, request: &Request)
        requires may { MayTake 1 self.old.parts step.old }
        requires owed { IsOwed (waiting step.old.m self.old.parts.requests) request.now }
        ensures change { so_far self.new.parts step.new
            ≡ retried table step.old.site.now step.old.m request.now (so_far self.old.parts step.old) }
        ensures parts { self.new.parts
            ≡ with_entry (Retried step.old.m request.now.nonce) self.old.parts }
        ensures taken { HasTaken 1 self.old.parts step.old self.new.parts step.new }
        ensures probe_room { self.old.probe_room ≤ self.new.probe_room }
    {
        let (m, nonce) = (step.m, request.nonce);
        self.retry(m, nonce);
        step.push(
            Entry::Retried { moment: m, nonce },
            Emit::Request {
                eid: request.eid,
                source: request.source,
                invoked: request.invoked,
                nonce,
            },
        );
    }
}
