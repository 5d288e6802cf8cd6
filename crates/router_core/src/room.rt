// Room for items of entries, made before any of these entries is applied.
ghost use Rattle.std.specs.Prelude.{◌≡◌, ◌<◌, ◌≤◌, length, OnOk};
ghost use Rattle.locator_state.specs.Limits.{most_reserved as most_reserved_probes};
ghost use Rattle.request_queue.specs.Limits.{most_reserved as most_reserved_requests};
ghost use Rattle.router_model.specs.Limits.{most_message_records};

use crate::Table;
use octets::NoMemory;

impl Table {
    /// Makes room for `n` further mappings, at most as many as a reply has records.
    pub(crate) fn reserve_mappings(&mut self, n: u32) -> Result<(), NoMemory>
        requires { n ≤ most_message_records }
        ensures parts { self.new.parts ≡ self.old.parts }
        ensures room { OnOk result (n ≤ self.new.mapping_room) }
    {
        // The call of `len` brings the fact that there are at most as many mappings as may live.
        let _ = self.cache.len();
        // Locators of mappings take no room of their own.
        self.cache.reserve(n, 0)
    }

    /// Makes room for `n` further requests.
    pub(crate) fn reserve_requests(&mut self, n: u32) -> Result<(), NoMemory>
        requires { n ≤ most_reserved_requests }
        ensures parts { self.new.parts ≡ self.old.parts }
        ensures room { OnOk result (n ≤ self.new.request_room) }
    {
        // The call of `len` brings the fact that there are at most as many requests as may be open.
        let _ = self.queue.len();
        self.queue.reserve(n)
    }

    /// Makes room for `n` further probes.
    pub(crate) fn reserve_probes(&mut self, n: u32) -> Result<(), NoMemory>
        requires { n ≤ most_reserved_probes }
        ensures parts { self.new.parts ≡ self.old.parts }
        ensures room { OnOk result (n ≤ self.new.probe_room) }
    {
        self.locators.reserve(n, 0)
    }

    /// Makes room for one more requested echo, one more wanted echo, and one more SMR.
    pub(crate) fn reserve_others(&mut self) -> Result<(), NoMemory>
        ensures parts { self.new.parts ≡ self.old.parts }
        ensures start_room { OnOk result (0 < self.new.start_room) }
        ensures wish_room { OnOk result (0 < self.new.wish_room) }
        ensures solicit_room { OnOk result (0 < self.new.solicit_room) }
    {
        self.locators.reserve(0, 1)
    }

    /// Makes room for `n` further SMRs.
    pub(crate) fn reserve_solicits(&mut self, n: u32) -> Result<(), NoMemory>
        requires { n ≤ most_reserved_probes }
        ensures parts { self.new.parts ≡ self.old.parts }
        ensures probe_room { self.old.probe_room ≤ self.new.probe_room }
        ensures room { OnOk result (n ≤ self.new.solicit_room) }
    {
        self.locators.reserve(0, n)
    }
}
