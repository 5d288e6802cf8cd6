// Notices of Map-Versions that are noted (RFC 9302, section 7).
ghost use Rattle.std.specs.Prelude.{◌≡◌, ◌<◌, ◌&&◌, is_some, IfOk};
ghost use Rattle.router_log.specs.declared.notice.Notice.TheVariants.{Refresh, Solicit};
ghost use Rattle.router_model.specs.Changes.{may_ask, unchanged};
ghost use Rattle.router_model.specs.Mappings.{exact};
ghost use Rattle.router_model.specs.Note.{is_learned, noted};
ghost use Rattle.router_model.specs.Parts.{table, view_in};
ghost use Rattle.router_model.specs.Site.{ours};
ghost use Rattle.router_core.specs.Steps.{AreSent, IsStep, MayStep};
ghost use Rattle.router_core.specs.Table.{changed_seen};

use crate::changed::only;
use crate::site::Site;
use crate::{Changed, Table};
use ip_headers::Addr;
use mapping_records::Eid;
use octets::NoMemory;
use router_log::{Emit, Entry};

impl Table {
    /// Notes that the mapping of an EID is older than the version that the other side named: a
    /// learned one is requested anew, if it may be.
    #[tactic(auto, unfolding(router_model::specs::Note::noted))]
    pub(crate) fn note_old(
        &mut self,
        site: &Site<'_>,
        m: u64,
        eid: &Eid,
    ) -> Result<Changed, NoMemory>
        requires may { MayStep m self.old.parts }
        ensures parts { IfOk result (λ changed. changed_seen self.new.parts changed
            ≡ noted table site.now m (Refresh eid.now) (unchanged self.old.parts)) }
        ensures sent { IfOk result (λ changed. AreSent site.now 1 changed.emits) }
        ensures step { IsStep 1 m self.old.parts self.new.parts result }
    {
        if !self.may_renew(site, m, eid) {
            return Ok(self.nothing());
        }
        self.make_request(site, m, *eid, None, false)
    }

    // Whether a learned mapping of exactly that EID is live, and may be requested.
    fn may_renew(&self, site: &Site<'_>, m: u64, eid: &Eid) -> bool
        ensures { result ≡ (is_learned (exact (view_in self.now.parts m).mappings eid.now)
            && may_ask site.now self.now.parts.limits (view_in self.now.parts m)
            eid.now) }
    {
        self.is_learned(m, eid) && self.may_ask(site, m, eid)
    }

    fn is_learned(&self, m: u64, eid: &Eid) -> bool
        ensures { result ≡ is_learned (exact (view_in self.now.parts m).mappings eid.now) }
    {
        match self.exact(m, eid) {
            None => false,
            Some(mapping) => !mapping.fixed,
        }
    }

    /// Notes that a locator named an old version of the mapping of an EID of the site: an SMR with
    /// the next nonce is sent to it, if it may be.
    #[tactic(auto, unfolding(router_model::specs::Note::noted))]
    pub(crate) fn note_solicit(
        &mut self,
        site: &Site<'_>,
        m: u64,
        rloc: Addr,
        eid: Eid,
    ) -> Result<Changed, NoMemory>
        requires may { MayStep m self.old.parts }
        ensures parts { IfOk result (λ changed. changed_seen self.new.parts changed
            ≡ noted table site.now m (Solicit rloc eid) (unchanged self.old.parts)) }
        ensures sent { IfOk result (λ changed. AreSent site.now 1 changed.emits) }
        ensures step { IsStep 1 m self.old.parts self.new.parts result }
    {
        if !self.may_solicit(site, m, &rloc, &eid) {
            return Ok(self.nothing());
        }
        let nonce = site.nonce_at(self.drawn);
        let entries = only(
            self.alloc,
            Entry::Solicited {
                moment: m,
                rloc,
                eid,
                nonce,
            },
        )?;
        let emits = only(
            self.alloc,
            Emit::Solicit {
                to: rloc,
                eid,
                nonce,
            },
        )?;
        self.reserve_others()?;
        self.solicit(m, rloc, eid, nonce);
        Ok(Changed { entries, emits })
    }

    // Whether an SMR for an EID may be sent to a locator: an own locator of its family is up, and
    // earlier SMRs allow it.
    #[tactic(auto, unfolding(router_model::specs::Parts::view_in))]
    fn may_solicit(&self, site: &Site<'_>, m: u64, rloc: &Addr, eid: &Eid) -> bool
        ensures { result ≡ (is_some (ours site.now.locators rloc.now)
            && (view_in self.now.parts m).may_solicit rloc.now eid.now) }
    {
        site.has_ours(rloc) && self.locators.may_solicit(self.moment_at(m), rloc, eid)
    }
}
