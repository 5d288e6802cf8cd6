// Entries of a journal, applied to a table as they are.
ghost use Rattle.std.specs.Prelude.{◌≡◌, ◌<◌, ◌≤◌, ◌∷◌, ◌^◌, true, false, length, IsTrue, OnErr, OnOk};
ghost use Rattle.lisp_settings.specs.declared.settings.Settings.{Settings as SettingsValue};
ghost use Rattle.lisp_settings.specs.Instances.{requests_in};
ghost use Rattle.map_cache.specs.Cache.{has_room, lasting, learned};
ghost use Rattle.request_queue.specs.Queue.{open_in, waiting};
ghost use Rattle.router_log.specs.declared.entry.Entry.TheVariants.{Asked, EchoStarted, EchoWanted, Learned, Probed, Solicited};
ghost use Rattle.router_model.specs.Journal.{Journal};
ghost use Rattle.router_model.specs.Limits.{most_locators, most_probes, most_version};
ghost use Rattle.router_model.specs.Parts.{Stands, absorbed, admits, view_in, with_entry};
ghost use Rattle.router_model.specs.Proper.{fits};
ghost use Rattle.router_core.specs.Bounded.{KeepLimits};
ghost use Rattle.router_core.specs.Steps.{IsTaken, MayEnter};

use crate::Table;
use crate::copies::copied;
use ip_headers::Addr;
use mapping_records::{Eid, Record};
use octets::NoMemory;
use router_log::Entry;

impl Table {
    /// Applies an entry that may follow: the table then stands for the journal with it. Where
    /// memory is refused, the table is as it was.
    #[tactic(auto, unfolding(router_model::specs::Parts::admits))]
    pub fn apply(&mut self, entry: &Entry) -> Result<(), NoMemory>
        requires { admits self.old.parts entry.now ≡ true }
        ensures parts { OnOk result (self.new.parts ≡ absorbed self.old.parts entry.now) }
        ensures journal { OnOk result ((settings : SettingsValue) → (journal : Journal)
            → Stands settings self.old.parts journal → fits settings journal entry.now ≡ true
            → Stands settings self.new.parts (entry.now ∷ journal)) }
        ensures err { OnErr result (self.new.parts ≡ self.old.parts) }
    {
        self.keeps_its_limits();
        match entry {
            Entry::Learned {
                moment,
                mapping,
                ..
            } => self.apply_learned(*moment, mapping),
            Entry::Asked {
                moment,
                eid,
                source,
                invoked,
                nonce,
            } => self.apply_asked(*moment, *eid, *source, *invoked, *nonce),
            Entry::Answered { moment, nonce } => {
                self.answer(*moment, *nonce);
                Ok(())
            }
            Entry::Bits {
                moment,
                eid,
                bits,
                width,
            } => {
                self.tell(*moment, eid, *bits, *width);
                Ok(())
            }
            Entry::Retried { moment, nonce } => {
                self.retry(*moment, *nonce);
                Ok(())
            }
            Entry::Probed {
                moment,
                rloc,
                nonce,
            } => self.apply_probed(*moment, *rloc, *nonce),
            Entry::ProbeAnswered { moment, nonce } => {
                self.answer_probe(*moment, *nonce);
                Ok(())
            }
            Entry::EchoStarted {
                moment,
                rloc,
                nonce,
            } => self.apply_started(*moment, *rloc, *nonce),
            Entry::EchoHeard { moment, rloc } => {
                self.hear_echo(*moment, rloc);
                Ok(())
            }
            Entry::DataFrom { moment, rloc } => {
                self.take_data(*moment, rloc);
                Ok(())
            }
            Entry::EchoWanted {
                moment,
                rloc,
                nonce,
            } => self.apply_wanted(*moment, *rloc, *nonce),
            Entry::Solicited {
                moment,
                rloc,
                eid,
                nonce,
            } => self.apply_solicited(*moment, *rloc, *eid, *nonce),
            Entry::Changed {
                moment,
                address,
                up,
            } => {
                self.change(*moment, *address, *up);
                Ok(())
            }
        }
    }

    // Makes room for the entry of a learned mapping, and applies it.
    fn apply_learned(&mut self, m: u64, mapping: &Record) -> Result<(), NoMemory>
        requires may { MayEnter 1 m self.old.parts }
        requires locators { length mapping.now.locators ≤ most_locators }
        requires version { mapping.now.version ≤ most_version }
        requires place { IsTrue (has_room self.old.parts.limits mapping.now false
            (lasting m self.old.parts.mappings)) }
        requires keeps { KeepLimits self.old.parts.limits
            (learned m mapping.now false self.old.parts.mappings) }
        ensures taken { IsTaken (Learned m mapping.now false) self.old.parts self.new.parts result }
    {
        let mapping = copied(self.alloc, mapping)?;
        self.reserve_mappings(1)?;
        self.learn(m, mapping, false);
        Ok(())
    }

    // Makes room for the entry of a request that was made, and applies it.
    fn apply_asked(
        &mut self,
        m: u64,
        eid: Eid,
        source: Option<Addr>,
        invoked: bool,
        nonce: u64,
    ) -> Result<(), NoMemory>
        requires may { MayEnter 1 m self.old.parts }
        requires place { open_in eid.iid (waiting m self.old.parts.requests)
            < requests_in self.old.parts.limits eid.iid }
        ensures taken { IsTaken (Asked m eid source invoked nonce) self.old.parts self.new.parts result }
    {
        self.reserve_requests(1)?;
        self.ask(m, eid, source, invoked, nonce);
        Ok(())
    }

    // Makes room for the entry of a probe that was sent, and applies it.
    fn apply_probed(&mut self, m: u64, rloc: Addr, nonce: u64) -> Result<(), NoMemory>
        requires may { MayEnter 1 m self.old.parts }
        requires place { (view_in self.old.parts m).probe_count < most_probes }
        ensures taken { IsTaken (Probed m rloc nonce) self.old.parts self.new.parts result }
    {
        self.reserve_probes(1)?;
        self.probe(m, rloc, nonce);
        Ok(())
    }

    // Makes room for the entry of an echo that is requested, and applies it.
    fn apply_started(&mut self, m: u64, rloc: Addr, nonce: u32) -> Result<(), NoMemory>
        requires may { MayEnter 1 m self.old.parts }
        requires short { nonce < 2 ^ 24 }
        requires place { IsTrue ((view_in self.old.parts m).may_start rloc) }
        ensures taken { IsTaken (EchoStarted m rloc nonce) self.old.parts self.new.parts result }
    {
        self.reserve_others()?;
        self.start_echo(m, rloc, nonce);
        Ok(())
    }

    // Makes room for the entry of an echo that a locator wants, and applies it.
    fn apply_wanted(&mut self, m: u64, rloc: Addr, nonce: u32) -> Result<(), NoMemory>
        requires may { MayEnter 1 m self.old.parts }
        requires short { nonce < 2 ^ 24 }
        requires place { IsTrue ((view_in self.old.parts m).may_want rloc nonce) }
        ensures taken { IsTaken (EchoWanted m rloc nonce) self.old.parts self.new.parts result }
    {
        self.reserve_others()?;
        self.want_echo(m, rloc, nonce);
        Ok(())
    }

    // Makes room for the entry of an SMR that was sent to a locator, and applies it.
    fn apply_solicited(&mut self, m: u64, rloc: Addr, eid: Eid, nonce: u64) -> Result<(), NoMemory>
        requires may { MayEnter 1 m self.old.parts }
        requires place { IsTrue ((view_in self.old.parts m).may_solicit rloc eid) }
        ensures taken { IsTaken (Solicited m rloc eid nonce) self.old.parts self.new.parts result }
    {
        self.reserve_others()?;
        self.solicit(m, rloc, eid, nonce);
        Ok(())
    }
}
