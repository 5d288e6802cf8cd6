// Locators that are probed at a second (RFC 9301, section 7.1).
ghost use Rattle.std.specs.Prelude.{◌≡◌, ◌<◌, ◌≤◌, ◌+◌, [], length, All, vec_capacity};
ghost use Rattle.router_model.specs.Changes.{each};
ghost use Rattle.router_model.specs.Limits.{most_targets};
ghost use Rattle.router_model.specs.Parts.{table};
ghost use Rattle.router_model.specs.Tick.{all_probed, probed};
ghost use Rattle.router_core.specs.Steps.{HasTaken, MayTake, so_far};
ghost use Rattle.router_core.specs.Ticking.{HasSender};

use crate::Table;
use crate::step::Step;
use locator_state::Target;
use router_log::{Emit, Entry};

impl Table {
    /// Probes the locators whose turn it is, if the setting `probe` is on. There is room for them in
    /// `targets`, which is empty.
    pub(crate) fn probe_next(&mut self, step: &mut Step<'_>, targets: &mut Vec<Target>)
        requires own { step.old.site.now.locators ≡ self.old.parts.own }
        requires may { MayTake most_targets self.old.parts step.old }
        requires none { targets.old.items ≡ [] }
        requires targets { most_targets < vec_capacity targets.old }
        requires room { most_targets ≤ self.old.probe_room }
        ensures change { so_far self.new.parts step.new
            ≡ all_probed table step.old.site.now step.old.m (so_far self.old.parts step.old) }
        ensures taken { HasTaken most_targets self.old.parts step.old self.new.parts step.new }
    {
        if !step.site.probes() {
            return;
        }
        self.find_turns(step.site, step.m, targets);
        self.probe_each(step, targets);
    }

    // Probes each of these locators, as long as there is room for one more probe.
    fn probe_each(&mut self, step: &mut Step<'_>, targets: &[Target])
        requires may { MayTake (length targets.now) self.old.parts step.old }
        requires senders { All (HasSender step.old.site.now) targets.now }
        requires room { length targets.now ≤ self.old.probe_room }
        ensures change { so_far self.new.parts step.new
            ≡ each (probed table step.old.site.now step.old.m) targets.now
            (so_far self.old.parts step.old) }
        ensures taken { HasTaken (length targets.now) self.old.parts step.old self.new.parts step.new }
    {
        let [target, others @ ..] = targets else {
            return;
        };
        self.probe_one(step, target);
        self.probe_each(step, others);
    }

    // Probes a locator, if there is room for one more probe.
    fn probe_one(&mut self, step: &mut Step<'_>, target: &Target)
        requires may { MayTake 1 self.old.parts step.old }
        requires sender { HasSender step.old.site.now target.now }
        requires room { 0 < self.old.probe_room }
        ensures change { so_far self.new.parts step.new
            ≡ probed table step.old.site.now step.old.m target.now (so_far self.old.parts step.old) }
        ensures taken { HasTaken 1 self.old.parts step.old self.new.parts step.new }
        ensures probe_room { self.old.probe_room ≤ self.new.probe_room + 1 }
    {
        let m = step.m;
        if !self.locators.may_probe(m) {
            return;
        }
        let nonce = step.site.nonce_at(self.drawn);
        self.probe(m, target.rloc, nonce);
        step.push(
            Entry::Probed {
                moment: m,
                rloc: target.rloc,
                nonce,
            },
            Emit::Probe {
                to: target.rloc,
                eid: target.eid,
                nonce,
            },
        );
    }
}
