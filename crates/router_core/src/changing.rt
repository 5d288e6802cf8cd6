// Own locators that go up and down at a second, by the changes of the settings.
ghost use Rattle.std.specs.Prelude.{◌≡◌, ◌<◌, ◌≤◌, ◌+◌, ◌∷◌, [], length, drop, vec_len, vec_capacity};
ghost use Rattle.lisp_settings.specs.declared.settings.Settings.{Settings as SettingsValue};
ghost use Rattle.request_queue.specs.Queue.{waiting};
ghost use Rattle.router_log.specs.Moments.{seconds};
ghost use Rattle.router_log.specs.declared.entry.Entry.TheVariants.{Changed};
ghost use Rattle.router_model.specs.Parts.{absorbed, table};
ghost use Rattle.router_model.specs.Standing.{due_changes};
ghost use Rattle.router_model.specs.Tick.{all_changed};
ghost use Rattle.router_core.specs.Steps.{AreAdded, HasTicked, MayEnter};
ghost use Rattle.router_core.specs.Telling.{LeavesRoom};
ghost use Rattle.router_core.specs.Table.{change_of};

use crate::Table;
use lisp_settings::{Change, Settings};
use router_log::Entry;

impl Table {
    /// The changes of the settings that weren't made yet.
    pub(crate) fn changes_left<'s>(&self, settings: &'s Settings) -> &'s [Change]
        ensures left { result.now ≡ drop self.now.parts.steps settings.now.changes }
        ensures few { length result.now ≤ length settings.now.changes }
    {
        let changes = settings.changes.as_slice();
        let made = changes.len().min(self.steps as usize);
        let (_, left) = changes.split_at(made);
        left
    }

    /// Makes those of these changes whose second isn't later than a moment.
    pub(crate) fn make_changes(&mut self, m: u64, changes: &[Change], entries: &mut Vec<Entry>)
        requires may { MayEnter (length changes.now) m self.old.parts }
        requires room { vec_len entries.old + length changes.now ≤ vec_capacity entries.old }
        ensures change { (settings : SettingsValue)
            → change_of self.new.parts entries.new.items []
            ≡ all_changed table settings m (due_changes m changes.now)
            (change_of self.old.parts entries.old.items []) }
        ensures entered { HasTicked (length changes.now) m self.old.parts self.new.parts }
        ensures entries { AreAdded (length changes.now) entries.old entries.new }
        ensures room { LeavesRoom self.old self.new }
        ensures waits { waiting m self.new.parts.requests ≡ waiting m self.old.parts.requests }
    {
        let [change, others @ ..] = changes else {
            return;
        };
        self.make_change(m, change, entries);
        self.make_changes(m, others, entries);
    }

    // Makes a change, if its second isn't later than a moment: its entry is applied, if the table
    // admits it.
    fn make_change(&mut self, m: u64, change: &Change, entries: &mut Vec<Entry>)
        requires may { MayEnter 1 m self.old.parts }
        requires room { vec_len entries.old < vec_capacity entries.old }
        ensures change { (settings : SettingsValue)
            → change_of self.new.parts entries.new.items []
            ≡ all_changed table settings m (due_changes m (change.now ∷ []))
            (change_of self.old.parts entries.old.items []) }
        ensures entered { HasTicked 1 m self.old.parts self.new.parts }
        ensures entries { AreAdded 1 entries.old entries.new }
        ensures room { LeavesRoom self.old self.new }
        ensures waits { waiting m self.new.parts.requests ≡ waiting m self.old.parts.requests }
    {
        if moment_of(change) > m {
            return;
        }
        let entry = Entry::Changed {
            moment: m,
            address: change.address,
            up: change.up,
        };
        self.enter_change(m, change, &entry);
        entries.push_reserved(entry);
    }

    // Applies the entry of a change, if the table admits it.
    fn enter_change(&mut self, m: u64, change: &Change, entry: &Entry)
        requires may { MayEnter 1 m self.old.parts }
        requires entry { entry.now ≡ Changed m change.now.address change.now.up }
        ensures parts { self.new.parts ≡ absorbed self.old.parts entry.now }
        ensures entered { HasTicked 1 m self.old.parts self.new.parts }
        ensures room { LeavesRoom self.old self.new }
        ensures waits { waiting m self.new.parts.requests ≡ waiting m self.old.parts.requests }
    {
        if !self.admits(entry) {
            return;
        }
        self.change(m, change.address, change.up);
    }
}

/// The moment of a change, in nanoseconds.
pub(crate) fn moment_of(change: &Change) -> u64
    ensures { result ≡ seconds change.now.at }
{
    u64::from(change.at) * 1_000_000_000
}
