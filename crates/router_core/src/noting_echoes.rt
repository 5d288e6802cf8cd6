// Notices of echoes that are noted (RFC 9300, section 10.1).
ghost use Rattle.std.specs.Prelude.{◌≡◌, ◌<◌, ◌&&◌, [], true, IfOk};
ghost use Rattle.lisp_settings.specs.declared.settings.Settings.{Settings as SettingsValue};
ghost use Rattle.router_log.specs.declared.notice.Notice.TheVariants.{DataFrom, EchoDue, EchoHeard, EchoWanted};
ghost use Rattle.router_model.specs.Changes.{unchanged};
ghost use Rattle.router_model.specs.Note.{is_echo, noted};
ghost use Rattle.router_model.specs.Parts.{table, view_in};
ghost use Rattle.router_model.specs.Proper.{is_short};
ghost use Rattle.router_core.specs.Steps.{IsStep, MayStep};
ghost use Rattle.router_core.specs.Table.{changed_seen};

use crate::changed::only;
use crate::site::Site;
use crate::{Changed, Table};
use ip_headers::Addr;
use octets::NoMemory;
use router_log::Entry;

impl Table {
    /// Notes that a locator wants this nonce echoed, if that may be noted.
    #[tactic(auto, unfolding(router_model::specs::Note::noted))]
    pub(crate) fn note_wanted(
        &mut self,
        m: u64,
        rloc: Addr,
        nonce: u32,
    ) -> Result<Changed, NoMemory>
        requires may { MayStep m self.old.parts }
        requires short { is_short nonce ≡ true }
        ensures parts { IfOk result (λ changed. (settings : SettingsValue)
            → changed_seen self.new.parts changed
            ≡ noted table settings m (EchoWanted rloc nonce) (unchanged self.old.parts)) }
        ensures quiet { IfOk result (λ changed. changed.emits ≡ []) }
        ensures step { IsStep 1 m self.old.parts self.new.parts result }
    {
        if !self.may_want(m, &rloc, nonce) {
            return Ok(self.nothing());
        }
        let entries = only(
            self.alloc,
            Entry::EchoWanted {
                moment: m,
                rloc,
                nonce,
            },
        )?;
        self.reserve_others()?;
        self.want_echo(m, rloc, nonce);
        Ok(self.quiet(entries))
    }

    /// Whether it may be noted that a locator wants this nonce echoed.
    #[tactic(auto, unfolding(router_model::specs::Parts::view_in))]
    pub(crate) fn may_want(&self, m: u64, rloc: &Addr, nonce: u32) -> bool
        ensures { result ≡ (view_in self.now.parts m).may_want rloc.now nonce }
    {
        self.locators.may_want(self.moment_at(m), rloc, nonce)
    }

    /// Notes that a locator echoed this nonce, if that echo is requested of it.
    #[tactic(auto, unfolding(router_model::specs::Note::noted))]
    pub(crate) fn note_heard(
        &mut self,
        m: u64,
        rloc: &Addr,
        nonce: u32,
    ) -> Result<Changed, NoMemory>
        requires may { MayStep m self.old.parts }
        ensures parts { IfOk result (λ changed. (settings : SettingsValue)
            → changed_seen self.new.parts changed
            ≡ noted table settings m (EchoHeard rloc.now nonce) (unchanged self.old.parts)) }
        ensures quiet { IfOk result (λ changed. changed.emits ≡ []) }
        ensures step { IsStep 1 m self.old.parts self.new.parts result }
    {
        if !self.is_echo(m, rloc, nonce) {
            return Ok(self.nothing());
        }
        let entries = only(
            self.alloc,
            Entry::EchoHeard {
                moment: m,
                rloc: *rloc,
            },
        )?;
        self.hear_echo(m, rloc);
        Ok(self.quiet(entries))
    }

    // Whether the echo of that nonce is requested of a locator.
    #[tactic(auto, unfolding(router_model::specs::Parts::view_in))]
    fn is_echo(&self, m: u64, rloc: &Addr, nonce: u32) -> bool
        ensures { result ≡ is_echo nonce ((view_in self.now.parts m).echo_on rloc.now) }
    {
        match self.locators.echo_on(self.moment_at(m), rloc) {
            None => false,
            Some(asked) => asked == nonce,
        }
    }

    /// Notes that a packet that wants no echo came from a locator, if an echo is requested of the
    /// locator and no packet came from it since.
    #[tactic(auto, unfolding(router_model::specs::Note::noted))]
    pub(crate) fn note_data(&mut self, m: u64, rloc: &Addr) -> Result<Changed, NoMemory>
        requires may { MayStep m self.old.parts }
        ensures parts { IfOk result (λ changed. (settings : SettingsValue)
            → changed_seen self.new.parts changed
            ≡ noted table settings m (DataFrom rloc.now) (unchanged self.old.parts)) }
        ensures quiet { IfOk result (λ changed. changed.emits ≡ []) }
        ensures step { IsStep 1 m self.old.parts self.new.parts result }
    {
        if !self.is_data_due(m, rloc) {
            return Ok(self.nothing());
        }
        let entries = only(
            self.alloc,
            Entry::DataFrom {
                moment: m,
                rloc: *rloc,
            },
        )?;
        self.take_data(m, rloc);
        Ok(self.quiet(entries))
    }

    /// Whether an echo is requested of a locator, and no packet came from it since.
    #[tactic(auto, unfolding(router_model::specs::Parts::view_in))]
    pub(crate) fn is_data_due(&self, m: u64, rloc: &Addr) -> bool
        ensures { result ≡ (view_in self.now.parts m).data_due rloc.now }
    {
        self.locators.data_due(self.moment_at(m), rloc)
    }

    /// Notes that an echo may be requested of a locator: from now on it is, with the low 24 bits of
    /// the next nonce, if it still may be.
    #[tactic(auto, unfolding(router_model::specs::Note::noted))]
    pub(crate) fn note_due(
        &mut self,
        site: &Site<'_>,
        m: u64,
        rloc: Addr,
    ) -> Result<Changed, NoMemory>
        requires may { MayStep m self.old.parts }
        ensures parts { IfOk result (λ changed. changed_seen self.new.parts changed
            ≡ noted table site.now m (EchoDue rloc) (unchanged self.old.parts)) }
        ensures quiet { IfOk result (λ changed. changed.emits ≡ []) }
        ensures step { IsStep 1 m self.old.parts self.new.parts result }
    {
        if !self.is_echo_due(site, m, &rloc) {
            return Ok(self.nothing());
        }
        let nonce = (site.nonce_at(self.drawn) % (1 << 24)) as u32;
        let entries = only(
            self.alloc,
            Entry::EchoStarted {
                moment: m,
                rloc,
                nonce,
            },
        )?;
        self.reserve_others()?;
        self.start_echo(m, rloc, nonce);
        Ok(self.quiet(entries))
    }

    /// Whether an echo is to be requested of a locator: the setting `echo` is on, and it may be.
    pub(crate) fn is_echo_due(&self, site: &Site<'_>, m: u64, rloc: &Addr) -> bool
        ensures { result
            ≡ (site.now.echo && (view_in self.now.parts m).may_start rloc.now) }
    {
        site.asks_echoes() && self.may_start(m, rloc)
    }
}
