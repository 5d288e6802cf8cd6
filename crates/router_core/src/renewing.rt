// Mappings that are requested anew because of an SMR, a Map-Request with S (RFC 9301, section 6.1).
ghost use Rattle.std.specs.Prelude.{◌≡◌, ◌<◌, ◌≤◌, ◌+◌, ◌^◌, length, map, option_to_list, All, IfOk, IfSome};
ghost use Rattle.map_messages.specs.Range.{InRangeRequest};
ghost use Rattle.router_model.specs.Changes.{each, unchanged};
ghost use Rattle.router_model.specs.Hear.{counted, ranges_of, renewable, renewed};
ghost use Rattle.router_model.specs.Limits.{most_heard};
ghost use Rattle.router_model.specs.Mappings.{force};
ghost use Rattle.router_model.specs.Parts.{table, view_in};
ghost use Rattle.router_core.specs.Renewing.{range_of, source_range};
ghost use Rattle.router_core.specs.Steps.{AreSent, HasTaken, IsStep, MayStep, MayTake, so_far};
ghost use Rattle.router_core.specs.Table.{heard_seen};

use crate::hosts::host_eid;
use crate::site::Site;
use crate::step::Step;
use crate::{Changed, Heard, Table};
use ip_headers::Addr;
use map_messages::MapRequest;
use mapping_records::Eid;
use octets::NoMemory;
use router_log::{Done, Emit, Entry, Verdict};

impl Table {
    /// Takes an SMR: the mappings in force for its Source EID and its EIDs are requested anew,
    /// where they may be. Where memory is refused, the table is as it was.
    pub(crate) fn renew(
        &mut self,
        site: &Site<'_>,
        m: u64,
        request: &MapRequest,
    ) -> Result<Heard, NoMemory>
        requires may { MayStep m self.old.parts }
        requires range { InRangeRequest request.now }
        ensures parts { IfOk result (λ heard. heard_seen self.new.parts heard
            ≡ counted table site.now m (each (renewed table site.now m)
            (ranges_of request.now) (unchanged self.old.parts))) }
        ensures sent { IfOk result (λ heard. AreSent site.now most_heard heard.emits) }
        ensures step { IsStep most_heard m self.old.parts self.new.parts result }
    {
        let eids = request.eids.as_slice();
        let most = 1 + eids.len();
        let mut step = Step::begin(self.alloc, site, m, most)?;
        self.reserve_requests(most as u32)?;
        self.renew_source(&mut step, request.source);
        self.renew_each(&mut step, eids);
        let asked = step.entries.len() as u32;
        let Changed { entries, emits } = step.changed();
        Ok(Heard {
            verdict: Verdict::Control(Done::Solicited(asked)),
            entries,
            emits,
        })
    }

    // Requests anew the mapping in force for a Source EID, if there is one.
    fn renew_source(&mut self, step: &mut Step<'_>, source: Option<(u32, Addr)>)
        requires may { MayTake 1 self.old.parts step.old }
        requires instance { IfSome source (λ source. source.0 < 2 ^ 24) }
        requires request_room { 0 < self.old.request_room }
        ensures change { so_far self.new.parts step.new
            ≡ each (renewed table step.old.site.now step.old.m)
            (map source_range (option_to_list source)) (so_far self.old.parts step.old) }
        ensures taken { HasTaken 1 self.old.parts step.old self.new.parts step.new }
        ensures request_room { self.old.request_room ≤ self.new.request_room + 1 }
    {
        let Some((iid, addr)) = source else {
            return;
        };
        self.renew_one(step, &host_eid(iid, addr));
    }

    // Requests anew the mapping in force for each of these EIDs, where it may be.
    fn renew_each(&mut self, step: &mut Step<'_>, eids: &[Eid])
        requires may { MayTake (length eids.now) self.old.parts step.old }
        requires request_room { length eids.now ≤ self.old.request_room }
        ensures change { so_far self.new.parts step.new
            ≡ each (renewed table step.old.site.now step.old.m) (map range_of eids.now)
            (so_far self.old.parts step.old) }
        ensures taken { HasTaken (length eids.now) self.old.parts step.old self.new.parts step.new }
    {
        let [eid, others @ ..] = eids else {
            return;
        };
        self.renew_one(step, eid);
        self.renew_each(step, others);
    }

    // Requests anew the mapping in force for an EID, if it was learned and may be requested.
    fn renew_one(&mut self, step: &mut Step<'_>, eid: &Eid)
        requires may { MayTake 1 self.old.parts step.old }
        requires request_room { 0 < self.old.request_room }
        ensures change { so_far self.new.parts step.new
            ≡ renewed table step.old.site.now step.old.m (range_of eid.now)
            (so_far self.old.parts step.old) }
        ensures taken { HasTaken 1 self.old.parts step.old self.new.parts step.new }
        ensures request_room { self.old.request_room ≤ self.new.request_room + 1 }
    {
        let m = step.m;
        let Some(eid) = self.renewable(step.site, m, eid) else {
            return;
        };
        let nonce = step.site.nonce_at(self.drawn);
        self.ask(m, eid, None, true, nonce);
        step.push(
            Entry::Asked {
                moment: m,
                eid,
                source: None,
                invoked: true,
                nonce,
            },
            Emit::Request {
                eid,
                source: None,
                invoked: true,
                nonce,
            },
        );
    }

    // The EID of the mapping in force for an EID, if it was learned and may be requested.
    fn renewable(&self, site: &Site<'_>, m: u64, eid: &Eid) -> Option<Eid>
        ensures { result ≡ renewable site.now self.now.parts.limits (view_in self.now.parts m)
            (force (view_in self.now.parts m).mappings eid.now.iid eid.now.prefix.addr
            eid.now.prefix.len) }
    {
        let mapping = self.in_force(m, eid)?;
        if mapping.fixed || !self.may_ask(site, m, &mapping.eid) {
            return None;
        }
        Some(mapping.eid)
    }
}
