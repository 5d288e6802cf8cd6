// A table: all that a router keeps of its journal.
ghost use Rattle.std.specs.Prelude.{◌≡◌, ◌<◌, ◌≤◌, ◌+◌, true, All, [], length, map, IfOk, OnOk};
ghost use Rattle.lisp_settings.specs.Instances.{all_mappings, limits_in};
ghost use Rattle.lisp_settings.specs.Lawful.{IsLawful, IsLawfulMapping};
ghost use Rattle.lisp_settings.specs.declared.settings.Settings.{Settings as SettingsValue};
ghost use Rattle.router_log.specs.declared.entry.Entry.TheVariants.{Learned};
ghost use Rattle.router_model.specs.Journal.{extended, statics};
ghost use Rattle.router_model.specs.Limits.{most_locators, most_mappings};
ghost use Rattle.router_model.specs.Parts.{Stands, parts_in, own_of, standing_in};
ghost use Rattle.router_core.specs.Bounded.{KeepLimits, most_kept};

use crate::copies::{copied, copied_own};
use crate::site::{Site, own_bits};
use crate::turns::{Turns, no_turns};
use lisp_settings::{Limits, OwnLocator, Settings, limits_of};
use locator_state::LocatorState;
use map_cache::MapCache;
use mapping_records::Record;
use octets::NoMemory;
use request_queue::RequestQueue;
use router_model::Own;
use std::alloc::Global;
use std::marker::Model;

/// The table of a router: all that it keeps of its journal, and not the entries themselves. It has
/// the own locators as they stand, the mappings, requests and state of locators that still count,
/// and the numbers of entries and of nonces used.
#[derive(Drop)]
pub struct Table {
    pub(crate) alloc: Global,
    // The own locators of the table's settings as they stand, and the number of changes made.
    pub(crate) own: Vec<OwnLocator>,
    pub(crate) steps: u32,
    // The limits of instances.
    pub(crate) limits: Limits,
    // The number of entries of the journal, and the number of those that used a nonce.
    pub(crate) count: u64,
    pub(crate) drawn: u64,
    pub(crate) cache: MapCache,
    pub(crate) queue: RequestQueue,
    pub(crate) locators: LocatorState,
    // What is known of whose turn it is to be probed.
    pub(crate) turns: Turns,
}

impl Model for Table {
    ghost use Rattle.std.specs.Prelude.{◌≤◌, ◌+◌, length};
    ghost use Rattle.router_core.specs.Table.{TableSeen};
    ghost use Rattle.router_core.specs.Bounded.{AreBounded, AreLimited, AreShort, AreVersioned};
    ghost use Rattle.router_core.specs.Turning.{IsTurned};

    ghost Value = { TableSeen };

    ghost view = { λ table. record {
      parts = record {
        count = table.count;
        drawn = table.drawn;
        now = table.cache.now;
        own = table.own.items;
        steps = table.steps;
        mappings = table.cache.mappings;
        requests = table.queue.requests;
        observed = table.locators.observed;
        limits = table.limits;
      };
      mapping_room = table.cache.spare;
      request_room = table.queue.spare;
      probe_room = table.locators.probe_room;
      start_room = table.locators.start_room;
      wish_room = table.locators.wish_room;
      solicit_room = table.locators.solicit_room;
      kept = table.cache.kept
          + (table.queue.kept + (table.locators.kept
          + (length table.own.items + length table.limits)));
    } };

    ghost invariant = { λ table. (table.drawn ≤ table.count)
        × IsTurned table.own.items table.turns table.cache.now
        table.locators.observed.probes table.cache.mappings
        × AreVersioned table.cache.mappings
        × AreShort table.locators.observed
        × AreBounded table.cache table.queue table.locators (length table.own.items)
        × AreLimited table.limits table.cache table.queue };
}

impl Table {
    /// The table of a router that begins: it stands for the journal of the static mappings.
    pub fn new(alloc: Global, settings: &Settings) -> Result<Table, NoMemory>
        requires { IsLawful settings.now }
        ensures parts { IfOk result (λ table. table.parts
            ≡ parts_in settings.now (statics settings.now)) }
        ensures stands { IfOk result (λ table.
            Stands settings.now table.parts (statics settings.now)) }
    {
        Table::begun(alloc, settings)
    }

    // The table of a router that begins, which has learned the static mappings.
    fn begun(alloc: Global, settings: &Settings) -> Result<Table, NoMemory>
        requires { IsLawful settings.now }
        ensures { IfOk result (λ table. table.parts
            ≡ parts_in settings.now (statics settings.now)) }
    {
        let own = copied_own(alloc, settings.locators.as_slice())?;
        let limits = limits_of(alloc, settings)?;
        let mut table = Table::empty(alloc, own, limits)?;
        table.begin(settings)?;
        Ok(table)
    }

    // The table for a journal without entries.
    fn empty(alloc: Global, own: Vec<OwnLocator>, limits: Limits) -> Result<Table, NoMemory>
        requires { length own.items ≤ most_locators }
        ensures { IfOk result (λ table. (settings : SettingsValue) → own.items ≡ settings.locators
            → limits ≡ limits_in settings → table.parts ≡ parts_in settings []) }
    {
        // The call of `as_slice` brings the fact that the limits together are at most as many
        // mappings as may live.
        let _ = limits.as_slice();
        let cache = MapCache::new(alloc, &limits)?;
        let queue = RequestQueue::new(alloc, &limits)?;
        Ok(Table {
            alloc,
            own,
            steps: 0,
            count: 0,
            drawn: 0,
            limits,
            cache,
            queue,
            locators: LocatorState::new(alloc),
            turns: no_turns(),
        })
    }

    // Makes room for `n` static mappings, in a table without mappings.
    fn reserve_statics(&mut self, n: u32) -> Result<(), NoMemory>
        requires none { self.old.parts.mappings ≡ [] }
        requires n { n ≤ most_mappings }
        ensures parts { self.new.parts ≡ self.old.parts }
        ensures room { OnOk result (n ≤ self.new.mapping_room) }
    {
        // Locators of mappings take no room of their own.
        self.cache.reserve(n, 0)
    }

    // Learns the static mappings of the settings, in a table without entries.
    fn begin(&mut self, settings: &Settings) -> Result<(), NoMemory>
        requires lawful { IsLawful settings.now }
        requires begins { self.old.parts ≡ parts_in settings.now [] }
        ensures { OnOk result (self.new.parts ≡ parts_in settings.now (statics settings.now)) }
    {
        let mappings = settings.mappings.as_slice();
        self.reserve_statics(mappings.len() as u32)?;
        self.learn_statics(mappings)
    }

    // Learns static mappings in a table without entries that has room for them; with all limits
    // they are at most as many mappings as may live.
    fn learn_statics(&mut self, mappings: &[Record]) -> Result<(), NoMemory>
        requires now { self.old.parts.now ≡ 0 }
        requires count { self.old.parts.count ≡ 0 }
        requires none { self.old.parts.mappings ≡ [] }
        requires few { length mappings.now + all_mappings self.old.parts.limits ≤ most_mappings }
        requires lawful { All IsLawfulMapping mappings.now }
        requires room { length mappings.now ≤ self.old.mapping_room }
        ensures { OnOk result ((settings : SettingsValue) → self.old.parts ≡ parts_in settings []
            → self.new.parts ≡ parts_in settings
            (extended [] (map (λ mapping. Learned 0 mapping true) mappings.now))) }
    {
        for mapping in mappings {
            let mapping = copied(self.alloc, mapping)?;
            self.keeps_its_limits();
            self.learn(0, mapping, true);
        }
        Ok(())
    }

    /// Drops a table that isn't needed any more, and returns the length of its journal. In a
    /// function where a table ends otherwise, the drops of all its parts are checked anew.
    pub fn closed(self) -> u64
        ensures { result ≡ self.parts.count }
    {
        self.count
    }

    /// The length of the journal.
    pub fn count(&self) -> u64
        ensures { result ≡ self.now.parts.count }
    {
        self.count
    }

    /// Which own locators are up, and how many changes of them were made.
    pub fn own(&self) -> Own
        ensures { result ≡ own_of self.now.parts }
    {
        Own {
            ups: own_bits(self.own.as_slice()) as u32,
            steps: self.steps,
        }
    }

    /// The own site as it stands for the table.
    pub(crate) fn site<'s>(&self, settings: &'s Settings) -> Site<'s>
        ensures { result ≡ standing_in settings.now self.now.parts }
    {
        Site::of(settings, self.own())
    }

    /// Law: no instance has learned more mappings than its limit, and the fixed mappings and all
    /// limits together are no more than may live.
    pub(crate) fn keeps_its_limits(&self)
        ensures { KeepLimits self.now.parts.limits self.now.parts.mappings }
    {
        // The call of `as_slice` brings the table's invariant of its limits.
        let _ = self.limits.as_slice();
    }

    /// Law: however long the capture is, all lists of a table together have at most `most_kept`
    /// items.
    pub fn keeps_to_its_size(&self)
        ensures { self.now.kept ≤ most_kept }
    {
        // The calls of `len` bring the bounds of all that is kept.
        let _ = (self.cache.len(), self.queue.len(), self.locators.len());
    }
}
