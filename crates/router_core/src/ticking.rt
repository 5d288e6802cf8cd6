// Seconds: what happens at each one that begins.
ghost use Rattle.std.specs.Prelude.{◌≡◌, ◌<◌, ◌≤◌, ◌*◌, [], true, false, length, vec_capacity, IsTrue, IfOk, OnOk};
ghost use Rattle.lisp_settings.specs.Lawful.{IsLawful};
ghost use Rattle.request_queue.specs.Queue.{all_due, waiting};
ghost use Rattle.router_log.specs.Moments.{seconds};
ghost use Rattle.router_model.specs.Changes.{unchanged};
ghost use Rattle.router_model.specs.Journal.{Journal};
ghost use Rattle.router_model.specs.Lifting.{Follows, MayGo};
ghost use Rattle.router_model.specs.Limits.{most_changes, most_databases, most_targets, most_ticked, most_told};
ghost use Rattle.router_model.specs.Parts.{Stands, standing_in, table};
ghost use Rattle.router_model.specs.Standing.{due_changes};
ghost use Rattle.router_model.specs.Tick.{after_changes, all_told, tick, ticked, ticked_by};
ghost use Rattle.router_core.specs.Changing.{Ascend};
ghost use Rattle.router_core.specs.Site.{IsSite};
ghost use Rattle.router_core.specs.Steps.{AreSent, HasTaken, IsSecond, IsStep, MayStep, MayTake, so_far};
ghost use Rattle.router_core.specs.Table.{changed_seen};
ghost use Rattle.router_core.specs.Telling.{IsEmptyFor, is_some_due, most_sent};
ghost use Rattle.router_core.specs.Ticking.{AreOwed};

use crate::changing::moment_of;
use crate::limits::MOST_TOLD;
use crate::site::Site;
use crate::step::Step;
use crate::{Changed, Table};
use ip_headers::Addr;
use lisp_settings::{Change, MOST_DATABASES, Settings};
use locator_state::{MOST_TARGETS, Target};
use octets::NoMemory;
use request_queue::Request;

impl Table {
    /// Plays a second: own locators go up and down by the changes of the settings, and then SMRs go
    /// to locators that mappings name; requests that are due are sent again, and locators are
    /// probed, if the setting `probe` is on (RFC 9301, sections 6.1 and 7.1). The entries that come
    /// of it are applied. Where memory is refused, the table is as it was. A second that is known
    /// to be idle takes no memory. The settings have the table's own locators.
    pub fn tick(&mut self, settings: &Settings, second: u32) -> Result<Changed, NoMemory>
        requires lawful { IsLawful settings.now }
        requires own { (standing_in settings.now self.old.parts).locators ≡ self.old.parts.own }
        requires may { MayStep (seconds second) self.old.parts }
        ensures parts { IfOk result (λ changed. changed_seen self.new.parts changed
            ≡ ticked table settings.now (seconds second) (unchanged self.old.parts)) }
        ensures journal { IfOk result (λ changed. (journal : Journal)
            → Stands settings.now self.old.parts journal → MayGo journal (seconds second)
            → Follows settings.now (changed_seen self.new.parts changed)
            (tick settings.now journal second)) }
        ensures sent { IfOk result (λ changed. AreSent (standing_in settings.now self.new.parts)
            most_ticked changed.emits) }
        ensures step { IsSecond most_ticked (seconds second) self.old.parts self.new.parts result }
    {
        self.tick_at(settings, u64::from(second) * 1_000_000_000)
    }

    // Plays the second that has that moment.
    fn tick_at(&mut self, settings: &Settings, m: u64) -> Result<Changed, NoMemory>
        requires lawful { IsLawful settings.now }
        requires own { (standing_in settings.now self.old.parts).locators ≡ self.old.parts.own }
        requires may { MayStep m self.old.parts }
        ensures parts { IfOk result (λ changed. changed_seen self.new.parts changed
            ≡ ticked table settings.now m (unchanged self.old.parts)) }
        ensures sent { IfOk result (λ changed. AreSent (standing_in settings.now self.new.parts)
            most_ticked changed.emits) }
        ensures step { IsSecond most_ticked m self.old.parts self.new.parts result }
    {
        let left = self.changes_left(settings);
        if is_due(m, left) {
            return self.change_and_send(settings, m, left);
        }
        let site = self.site(settings);
        self.send_at(&site, m)
    }

    // Sends requests that are due and probes, at a moment at which no own locator changes. A moment
    // that is known to be idle takes no memory.
    fn send_at(&mut self, site: &Site<'_>, m: u64) -> Result<Changed, NoMemory>
        requires own { site.now.locators ≡ self.old.parts.own }
        requires may { MayStep m self.old.parts }
        ensures parts { IfOk result (λ changed. changed_seen self.new.parts changed
            ≡ after_changes table site.now m false (unchanged self.old.parts)) }
        ensures sent { IfOk result (λ changed. AreSent site.now most_ticked changed.emits) }
        ensures step { IsStep most_ticked m self.old.parts self.new.parts result }
    {
        if self.is_idle(site, m) {
            return Ok(self.nothing());
        }
        self.begin_names(site)?;
        let changed = self.send_due(site, m)?;
        self.look_ahead(&changed);
        Ok(changed)
    }

    // Whether no request is due and no locator is to be probed at a moment, as far as is known
    // without a look at all that is kept.
    fn is_idle(&self, site: &Site<'_>, m: u64) -> bool
        requires now { self.now.parts.now ≤ m }
        requires own { site.now.locators ≡ self.now.parts.own }
        ensures { IsTrue result → after_changes table site.now m false (unchanged self.now.parts)
            ≡ unchanged self.now.parts }
    {
        self.queue.next_due(m, None).is_none() && (!site.probes() || self.is_at_rest(m))
    }

    // Finds, behind a moment without entries, the moment until which no request is due.
    fn look_ahead(&mut self, changed: &Changed)
        ensures parts { self.new.parts ≡ self.old.parts }
    {
        if changed.entries.len() > 0 {
            return;
        }
        self.queue.look_ahead();
    }

    // Sends the requests that are due again, and probes locators.
    #[tactic(auto, unfolding(router_model::specs::Tick::after_changes))]
    fn send_due(&mut self, site: &Site<'_>, m: u64) -> Result<Changed, NoMemory>
        requires own { site.now.locators ≡ self.old.parts.own }
        requires may { MayStep m self.old.parts }
        ensures parts { IfOk result (λ changed. changed_seen self.new.parts changed
            ≡ after_changes table site.now m false (unchanged self.old.parts)) }
        ensures sent { IfOk result (λ changed. AreSent site.now most_ticked changed.emits) }
        ensures step { IsStep most_ticked m self.old.parts self.new.parts result }
    {
        let due = self.due_requests(m)?;
        let mut step = Step::begin(self.alloc, site, m, due.len() + MOST_TARGETS)?;
        let mut targets = Vec::new(self.alloc);
        targets.reserve(MOST_TARGETS + 1)?;
        self.reserve_probes(MOST_TARGETS as u32)?;
        self.retry_due(&mut step, due.as_slice());
        self.probe_next(&mut step, &mut targets);
        Ok(step.changed())
    }

    // Begins to keep the locators of mappings in order, where locators are probed.
    fn begin_names(&mut self, site: &Site<'_>) -> Result<(), NoMemory>
        ensures same { self.new.parts ≡ self.old.parts }
    {
        if site.probes() {
            return self.cache.begin_names();
        }
        Ok(())
    }

    // Makes the changes that are due, sends SMRs for them, sends the requests that are due again,
    // and probes locators. All room is made before the first change.
    fn change_and_send(
        &mut self,
        settings: &Settings,
        m: u64,
        left: &[Change],
    ) -> Result<Changed, NoMemory>
        requires lawful { IsLawful settings.now }
        requires own { (standing_in settings.now self.old.parts).locators ≡ self.old.parts.own }
        requires few { length left.now ≤ most_changes }
        requires some { IsTrue (is_some_due m left.now) }
        requires may { MayStep m self.old.parts }
        ensures parts { IfOk result (λ changed. changed_seen self.new.parts changed
            ≡ ticked_by table settings.now m (due_changes m left.now) (unchanged self.old.parts)) }
        ensures sent { IfOk result (λ changed. AreSent (standing_in settings.now self.new.parts)
            most_ticked changed.emits) }
        ensures step { IsSecond most_ticked m self.old.parts self.new.parts result }
    {
        let due = self.due_requests(m)?;
        let most = MOST_TOLD * MOST_DATABASES + (due.len() + MOST_TARGETS);
        let mut entries = Vec::new(self.alloc);
        entries.reserve(left.len() + most)?;
        let mut emits = Vec::new(self.alloc);
        emits.reserve(most)?;
        let mut found = self.found()?;
        self.reserve_second()?;
        self.make_changes(m, left, &mut entries);
        let site = self.site(settings);
        let mut step = Step {
            site: &site,
            m,
            entries,
            emits,
        };
        self.tell_and_send(&mut step, due.as_slice(), &mut found);
        Ok(step.changed())
    }

    // Empty lists with room for the locators that are found at a second.
    fn found(&self) -> Result<Found, NoMemory>
        ensures { IfOk result (λ found. IsEmptyFor found) }
    {
        let mut told = Vec::new(self.alloc);
        told.reserve(MOST_TOLD + 1)?;
        let mut targets = Vec::new(self.alloc);
        targets.reserve(MOST_TARGETS + 1)?;
        Ok(Found { told, targets })
    }

    // Makes room for the SMRs and probes of a second, and begins to keep the locators of mappings in
    // order.
    fn reserve_second(&mut self) -> Result<(), NoMemory>
        ensures parts { self.new.parts ≡ self.old.parts }
        ensures solicits { OnOk result (most_told * most_databases ≤ self.new.solicit_room) }
        ensures probes { OnOk result (most_targets ≤ self.new.probe_room) }
    {
        self.cache.begin_names()?;
        self.reserve_probes(MOST_TARGETS as u32)?;
        self.reserve_solicits((MOST_TOLD * MOST_DATABASES) as u32)
    }

    // Sends SMRs for changes of own locators, sends the requests that are due again, and probes
    // locators, where there is room for all of it.
    fn tell_and_send(&mut self, step: &mut Step<'_>, due: &[Request], found: &mut Found)
        requires site { IsSite step.old.site.now }
        requires own { step.old.site.now.locators ≡ self.old.parts.own }
        requires may { MayTake (most_sent (length due.now)) self.old.parts step.old }
        requires due { due.now ≡ all_due step.old.m self.old.parts.requests }
        requires owed { AreOwed (waiting step.old.m self.old.parts.requests) due.now }
        requires empty { IsEmptyFor found.old }
        requires solicits { most_told * most_databases ≤ self.old.solicit_room }
        requires probes { most_targets ≤ self.old.probe_room }
        ensures change { so_far self.new.parts step.new
            ≡ after_changes table step.old.site.now step.old.m true (so_far self.old.parts step.old) }
        ensures taken { HasTaken (most_sent (length due.now)) self.old.parts step.old
            self.new.parts step.new }
    {
        self.tell_found(step, &mut found.told);
        self.retry_due(step, due);
        self.probe_next(step, &mut found.targets);
    }

    // Finds the locators that get SMRs for changes, and sends these.
    fn tell_found(&mut self, step: &mut Step<'_>, told: &mut Vec<Addr>)
        requires site { IsSite step.old.site.now }
        requires may { MayTake (most_told * most_databases) self.old.parts step.old }
        requires none { told.old.items ≡ [] }
        requires told_room { most_told < vec_capacity told.old }
        requires solicits { most_told * most_databases ≤ self.old.solicit_room }
        ensures change { so_far self.new.parts step.new
            ≡ all_told table step.old.site.now step.old.m true (so_far self.old.parts step.old) }
        ensures taken { HasTaken (most_told * most_databases) self.old.parts step.old
            self.new.parts step.new }
        ensures probe_room { self.old.probe_room ≤ self.new.probe_room }
        ensures waits { waiting step.old.m self.new.parts.requests
            ≡ waiting step.old.m self.old.parts.requests }
    {
        self.find_told(step.site, step.m, told);
        self.tell_each(step, told.as_slice());
    }
}

// The locators that are found at a second: those that get SMRs, and those that are probed.
#[derive(Drop)]
struct Found {
    told: Vec<Addr>,
    targets: Vec<Target>,
}

// Whether one of these changes is due at a moment. They ascend by second, so that the first one is
// if any is.
fn is_due(m: u64, changes: &[Change]) -> bool
    requires { Ascend changes.now }
    ensures { result ≡ is_some_due m changes.now }
{
    match changes.first() {
        None => false,
        Some(change) => moment_of(change) <= m,
    }
}
