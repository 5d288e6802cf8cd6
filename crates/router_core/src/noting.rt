// Notices that are noted: the entries and packets that they lead to.
ghost use Rattle.std.specs.Prelude.{◌≡◌, ◌==◌, ◌||◌, [], true, Some, ℕ, IfOk};
ghost use Rattle.lisp_settings.specs.declared.settings.Settings.{Settings as SettingsValue};
ghost use Rattle.router_log.specs.declared.notice.Notice.TheVariants.{Ask, Bits};
ghost use Rattle.router_model.specs.Apart.{AreApart};
ghost use Rattle.router_model.specs.Changes.{unchanged};
ghost use Rattle.router_model.specs.Isolation.{of_instance};
ghost use Rattle.router_model.specs.Journal.{Journal};
ghost use Rattle.router_model.specs.Lifting.{Follows, MayGo, is_sound};
ghost use Rattle.router_model.specs.Note.{is_missing, is_news, is_wanting, note, noted};
ghost use Rattle.router_model.specs.Mappings.{exact, force};
ghost use Rattle.router_model.specs.Parts.{Stands, table, view_in, standing_in};
ghost use Rattle.router_model.specs.Tenants.{NoncesDiffer, notice_instance};
ghost use Rattle.router_core.specs.Steps.{AreSent, IsStep, MayStep};
ghost use Rattle.router_core.specs.Table.{changed_seen};

use crate::changed::only;
use crate::site::Site;
use crate::status::{differs, is_named};
use crate::{Changed, Table};
use ip_headers::Addr;
use lisp_settings::Settings;
use mapping_records::Eid;
use octets::NoMemory;
use router_log::{Entry, Notice};

impl Table {
    /// Notes a notice at a moment, and applies the entry that comes of it, if any. Where memory is
    /// refused, the table is as it was. A notice of status bits has 8 or 32 of them, and a notice
    /// of a wanted echo has a nonce of 24 bits.
    pub fn note(
        &mut self,
        settings: &Settings,
        m: u64,
        notice: &Notice,
    ) -> Result<Changed, NoMemory>
        requires may { MayStep m self.old.parts }
        requires sound { is_sound notice.now ≡ true }
        ensures parts { IfOk result (λ changed. changed_seen self.new.parts changed
            ≡ noted table (standing_in settings.now self.old.parts) m notice.now
            (unchanged self.old.parts)) }
        ensures journal { IfOk result (λ changed. (journal : Journal)
            → Stands settings.now self.old.parts journal → MayGo journal m
            → Follows settings.now (changed_seen self.new.parts changed)
            (note settings.now journal m notice.now)) }
        ensures isolated { IfOk result (λ changed. (journal : Journal) (i : ℕ)
            → Stands settings.now self.old.parts journal → MayGo journal m
            → NoncesDiffer m journal → notice_instance notice.now ≡ Some i
            → AreApart (changed_seen self.new.parts changed)
            (note settings.now (of_instance journal i) m notice.now)) }
        ensures sent { IfOk result (λ changed. AreSent (standing_in settings.now self.new.parts) 1
            changed.emits) }
        ensures step { IsStep 1 m self.old.parts self.new.parts result }
    {
        self.note_found(settings, m, notice, None)
    }

    /// Notes a notice like `note`, with the name under which the decision found the mapping in force
    /// (`Notices::found`), or None. With any name the outcome is the same: where the name is that of
    /// the notice's mapping, the mapping isn't looked up again.
    pub fn note_found(
        &mut self,
        settings: &Settings,
        m: u64,
        notice: &Notice,
        found: Option<u32>,
    ) -> Result<Changed, NoMemory>
        requires may { MayStep m self.old.parts }
        requires sound { is_sound notice.now ≡ true }
        ensures parts { IfOk result (λ changed. changed_seen self.new.parts changed
            ≡ noted table (standing_in settings.now self.old.parts) m notice.now
            (unchanged self.old.parts)) }
        ensures journal { IfOk result (λ changed. (journal : Journal)
            → Stands settings.now self.old.parts journal → MayGo journal m
            → Follows settings.now (changed_seen self.new.parts changed)
            (note settings.now journal m notice.now)) }
        ensures isolated { IfOk result (λ changed. (journal : Journal) (i : ℕ)
            → Stands settings.now self.old.parts journal → MayGo journal m
            → NoncesDiffer m journal → notice_instance notice.now ≡ Some i
            → AreApart (changed_seen self.new.parts changed)
            (note settings.now (of_instance journal i) m notice.now)) }
        ensures sent { IfOk result (λ changed. AreSent (standing_in settings.now self.new.parts) 1
            changed.emits) }
        ensures step { IsStep 1 m self.old.parts self.new.parts result }
    {
        let site = self.site(settings);
        self.note_by(&site, m, notice, found)
    }

    // Notes a notice, for the site as it stands.
    #[tactic(auto, unfolding(router_model::specs::Note::noted))]
    fn note_by(
        &mut self,
        site: &Site<'_>,
        m: u64,
        notice: &Notice,
        found: Option<u32>,
    ) -> Result<Changed, NoMemory>
        requires may { MayStep m self.old.parts }
        requires sound { is_sound notice.now ≡ true }
        ensures parts { IfOk result (λ changed. changed_seen self.new.parts changed
            ≡ noted table site.now m notice.now (unchanged self.old.parts)) }
        ensures sent { IfOk result (λ changed. AreSent site.now 1 changed.emits) }
        ensures step { IsStep 1 m self.old.parts self.new.parts result }
    {
        match notice {
            Notice::Ask { eid, source } => self.note_missing(site, m, eid, *source),
            Notice::Bits {
                eid,
                rloc,
                bits,
                width,
            } => self.note_bits(m, eid, rloc, *bits, *width, found),
            Notice::Refresh { eid } => self.note_old(site, m, eid),
            Notice::EchoWanted { rloc, nonce } => self.note_wanted(m, *rloc, *nonce),
            Notice::EchoHeard { rloc, nonce } => self.note_heard(m, rloc, *nonce),
            Notice::DataFrom { rloc } => self.note_data(m, rloc),
            Notice::Solicit { rloc, eid } => self.note_solicit(site, m, *rloc, *eid),
            Notice::EchoDue { rloc } => self.note_due(site, m, *rloc),
        }
    }

    // Notes status bits from a locator, if they are news of the locators of a live mapping.
    #[tactic(auto, unfolding(router_model::specs::Note::noted))]
    fn note_bits(
        &mut self,
        m: u64,
        eid: &Eid,
        rloc: &Addr,
        bits: u32,
        width: u8,
        found: Option<u32>,
    ) -> Result<Changed, NoMemory>
        requires may { MayStep m self.old.parts }
        requires width { ((width == 8) || (width == 32)) ≡ true }
        ensures parts { IfOk result (λ changed. (settings : SettingsValue)
            → changed_seen self.new.parts changed
            ≡ noted table settings m (Bits eid.now rloc.now bits width) (unchanged self.old.parts)) }
        ensures quiet { IfOk result (λ changed. changed.emits ≡ []) }
        ensures step { IsStep 1 m self.old.parts self.new.parts result }
    {
        if !self.is_news(m, eid, rloc, bits, width, found) {
            return Ok(self.nothing());
        }
        let entries = only(
            self.alloc,
            Entry::Bits {
                moment: m,
                eid: *eid,
                bits,
                width,
            },
        )?;
        self.tell(m, eid, bits, width);
        Ok(self.quiet(entries))
    }

    // Whether status bits from a locator are news: the mapping of the EID is live and names that
    // locator, and one of its locators has another status than its bit.
    fn is_news(
        &self,
        m: u64,
        eid: &Eid,
        rloc: &Addr,
        bits: u32,
        width: u8,
        found: Option<u32>,
    ) -> bool
        ensures { result ≡ is_news rloc.now bits width
            (exact (view_in self.now.parts m).mappings eid.now) }
    {
        match self.exact_at(m, eid, found) {
            None => false,
            Some(mapping) => {
                let locators = mapping.details.locators.as_slice();
                is_named(locators, rloc) && differs(mapping, bits, width, 0, locators)
            }
        }
    }

    // Requests a missing mapping, if it may be requested.
    #[tactic(auto, unfolding(router_model::specs::Note::noted))]
    fn note_missing(
        &mut self,
        site: &Site<'_>,
        m: u64,
        eid: &Eid,
        source: Option<Addr>,
    ) -> Result<Changed, NoMemory>
        requires may { MayStep m self.old.parts }
        ensures parts { IfOk result (λ changed. changed_seen self.new.parts changed
            ≡ noted table site.now m (Ask eid.now source) (unchanged self.old.parts)) }
        ensures sent { IfOk result (λ changed. AreSent site.now 1 changed.emits) }
        ensures step { IsStep 1 m self.old.parts self.new.parts result }
    {
        if !self.is_missing(site, m, eid) {
            return Ok(self.nothing());
        }
        self.make_request(site, m, *eid, source, false)
    }

    // Whether a Map-Request for an EID is to be sent: it may be, and the mapping is wanting. While
    // a request for the EID is open, as for each packet behind the first, its mapping isn't looked
    // up a second time.
    fn is_missing(&self, site: &Site<'_>, m: u64, eid: &Eid) -> bool
        ensures { result ≡ is_missing site.now self.now.parts.limits (view_in self.now.parts m)
            eid.now }
    {
        self.may_ask(site, m, eid) && self.is_wanting(m, eid)
    }

    // Whether a mapping for an EID is wanting: none is in force, or one without locators whose
    // action is to send a Map-Request.
    fn is_wanting(&self, m: u64, eid: &Eid) -> bool
        ensures { result ≡ is_wanting (force (view_in self.now.parts m).mappings eid.now.iid
            eid.now.prefix.addr eid.now.prefix.len) }
    {
        match self.in_force(m, eid) {
            None => true,
            Some(mapping) => mapping.details.locators.len() == 0 && mapping.details.action == 2,
        }
    }
}
