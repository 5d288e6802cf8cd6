// SMRs for the site's prefixes to other sites' locators, behind changes (RFC 9301, section 6.1).
ghost use Rattle.std.specs.Prelude.{◌≡◌, ◌<◌, ◌≤◌, ◌+◌, ◌*◌, length, map, All, IsTrue};
ghost use Rattle.request_queue.specs.Queue.{waiting};
ghost use Rattle.router_model.specs.Changes.{each};
ghost use Rattle.router_model.specs.Parts.{table};
ghost use Rattle.router_model.specs.Standing.{stood};
ghost use Rattle.router_model.specs.Tick.{is_told, told, told_all};
ghost use Rattle.router_core.specs.Steps.{HasTaken, MayTake, so_far};

use crate::Table;
use crate::step::Step;
use ip_headers::Addr;
use lisp_settings::Database;
use mapping_records::Eid;
use router_log::{Emit, Entry};

impl Table {
    /// Sends to each of these locators an SMR for each prefix of the site, where it may be sent.
    pub(crate) fn tell_each(&mut self, step: &mut Step<'_>, told: &[Addr])
        requires may { MayTake (length step.old.site.now.databases * length told.now) self.old.parts
            step.old }
        requires reached { All (λ address. IsTrue (is_told step.old.site.now address)) told.now }
        requires room { length step.old.site.now.databases * length told.now ≤ self.old.solicit_room }
        ensures change { so_far self.new.parts step.new
            ≡ each (told_all table step.old.site.now step.old.m) told.now (so_far self.old.parts step.old) }
        ensures taken { HasTaken (length step.old.site.now.databases * length told.now) self.old.parts
            step.old self.new.parts step.new }
        ensures probe_room { self.old.probe_room ≤ self.new.probe_room }
        ensures waits { waiting step.old.m self.new.parts.requests
            ≡ waiting step.old.m self.old.parts.requests }
    {
        let [address, others @ ..] = told else {
            return;
        };
        let (databases, _) = step.site.databases();
        self.tell_locator(step, *address, databases);
        self.tell_each(step, others);
    }

    // Sends to a locator an SMR for each of these prefixes, where it may be sent.
    fn tell_locator(&mut self, step: &mut Step<'_>, address: Addr, databases: &[Database])
        requires may { MayTake (length databases.now) self.old.parts step.old }
        requires reached { IsTrue (is_told step.old.site.now address) }
        requires room { length databases.now ≤ self.old.solicit_room }
        ensures change { (steps : _) → so_far self.new.parts step.new
            ≡ each (told table step.old.site.now step.old.m address) (map (stood steps) databases.now)
            (so_far self.old.parts step.old) }
        ensures taken { HasTaken (length databases.now) self.old.parts step.old self.new.parts step.new }
        ensures probe_room { self.old.probe_room ≤ self.new.probe_room }
        ensures waits { waiting step.old.m self.new.parts.requests
            ≡ waiting step.old.m self.old.parts.requests }
        ensures solicit_room { self.old.solicit_room ≤ self.new.solicit_room + length databases.now }
    {
        let [database, others @ ..] = databases else {
            return;
        };
        self.tell_of(step, address, &database.eid);
        self.tell_locator(step, address, others);
    }

    // Sends to a locator an SMR for a prefix, if earlier SMRs allow it.
    fn tell_of(&mut self, step: &mut Step<'_>, address: Addr, eid: &Eid)
        requires may { MayTake 1 self.old.parts step.old }
        requires reached { IsTrue (is_told step.old.site.now address) }
        requires room { 0 < self.old.solicit_room }
        ensures change { (version : _) → so_far self.new.parts step.new
            ≡ told table step.old.site.now step.old.m address
            (record { eid = eid.now; version = version }) (so_far self.old.parts step.old) }
        ensures taken { HasTaken 1 self.old.parts step.old self.new.parts step.new }
        ensures probe_room { self.old.probe_room ≤ self.new.probe_room }
        ensures waits { waiting step.old.m self.new.parts.requests
            ≡ waiting step.old.m self.old.parts.requests }
        ensures solicit_room { self.old.solicit_room ≤ self.new.solicit_room + 1 }
    {
        let m = step.m;
        if !self.may_be_solicited(m, &address, eid) {
            return;
        }
        let nonce = step.site.nonce_at(self.drawn);
        self.solicit(m, address, *eid, nonce);
        step.push(
            Entry::Solicited {
                moment: m,
                rloc: address,
                eid: *eid,
                nonce,
            },
            Emit::Solicit {
                to: address,
                eid: *eid,
                nonce,
            },
        );
    }
}
