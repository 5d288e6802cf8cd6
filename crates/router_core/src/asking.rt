// Map-Requests for mappings: when one may be sent, and how.
ghost use Rattle.std.specs.Prelude.{◌≡◌, ◌<◌, IfOk};
ghost use Rattle.lisp_settings.specs.Instances.{requests_in};
ghost use Rattle.request_queue.specs.Queue.{open_in, waiting};
ghost use Rattle.router_model.specs.Changes.{asked, may_ask, may_open, unchanged};
ghost use Rattle.router_model.specs.Parts.{table, view_in};
ghost use Rattle.router_core.specs.Steps.{AreSent, IsStep, MayStep};
ghost use Rattle.router_core.specs.Table.{changed_seen};

use crate::changed::only;
use crate::site::Site;
use crate::{Changed, Table};
use ip_headers::Addr;
use mapping_records::Eid;
use node_store::Reads;
use octets::NoMemory;
use router_log::{Emit, Entry};

impl Table {
    /// Whether a Map-Request for an EID may be sent: the resolver is reached, no open request
    /// covers the EID, and its instance has room for one more.
    #[tactic(auto, unfolding(router_model::specs::Parts::view_in))]
    pub(crate) fn may_ask(&self, site: &Site<'_>, m: u64, eid: &Eid) -> bool
        ensures { result ≡ may_ask site.now self.now.parts.limits (view_in self.now.parts m)
            eid.now }
    {
        site.reaches_resolver()
            && !self
                .queue
                .open_for(self.moment_at(m), eid, &mut Reads::new())
            && self.may_open(m, eid.iid)
    }

    /// Whether there is room for one more open request for an EID of an instance.
    pub(crate) fn may_open(&self, m: u64, iid: u32) -> bool
        ensures { result ≡ may_open self.now.parts.limits (view_in self.now.parts m) iid }
    {
        self.queue.has_place_in(self.moment_at(m), iid)
    }

    /// Makes a Map-Request with the next nonce, and applies its entry. Where memory is refused, the
    /// table is as it was.
    pub(crate) fn make_request(
        &mut self,
        site: &Site<'_>,
        m: u64,
        eid: Eid,
        source: Option<Addr>,
        invoked: bool,
    ) -> Result<Changed, NoMemory>
        requires may { MayStep m self.old.parts }
        requires place { open_in eid.iid (waiting m self.old.parts.requests)
            < requests_in self.old.parts.limits eid.iid }
        ensures parts { IfOk result (λ changed. changed_seen self.new.parts changed
            ≡ asked table site.now m eid source invoked (unchanged self.old.parts)) }
        ensures sent { IfOk result (λ changed. AreSent site.now 1 changed.emits) }
        ensures step { IsStep 1 m self.old.parts self.new.parts result }
    {
        let nonce = site.nonce_at(self.drawn);
        let entries = only(
            self.alloc,
            Entry::Asked {
                moment: m,
                eid,
                source,
                invoked,
                nonce,
            },
        )?;
        let emits = only(
            self.alloc,
            Emit::Request {
                eid,
                source,
                invoked,
                nonce,
            },
        )?;
        self.reserve_requests(1)?;
        self.ask(m, eid, source, invoked, nonce);
        Ok(Changed { entries, emits })
    }
}
