// The records of a Map-Reply, learned or passed over.
ghost use Rattle.std.specs.Prelude.{◌≡◌, ◌<◌, ◌≤◌, ◌+◌, ◌&&◌, ◌||◌, nat_lt, max, is_some, [], Some, not, length, map, IfOk, vec_len, vec_capacity};
ghost use Rattle.std.specs.List.{All, list_any};
ghost use Rattle.std.specs.List.Sorted.{IsStrictlySortedBy};
ghost use Rattle.lisp_settings.specs.Instances.{mappings_in};
ghost use Rattle.map_messages.specs.Range.{InRangeReply};
ghost use Rattle.mapping_records.specs.Record.{InRange};
ghost use Rattle.request_queue.specs.Queue.{waiting, with_nonce};
ghost use Rattle.router_model.specs.Changes.{each, has_room, learned_in, unchanged};
ghost use Rattle.router_model.specs.Hear.{is_asked_for, is_fit, is_static, replied_to, taught};
ghost use Rattle.mapping_records.specs.Eids.{same_eid};
ghost use Rattle.mapping_records.specs.Orders.{eid_order};
ghost use Rattle.router_model.specs.Limits.{most_heard};
ghost use Rattle.router_model.specs.Parts.{table, view_in};
ghost use Rattle.router_core.specs.Site.{IsSite};
ghost use Rattle.router_core.specs.Copies.{all_copies, copies_of};
ghost use Rattle.router_core.specs.Steps.{AreAdded, HasEntered, IsStep, MayEnter, MayStep};
ghost use Rattle.router_core.specs.Table.{change_of, heard_seen};

use crate::copies::{Copies, all_copies};
use crate::grounds::Grounds;
use crate::site::Site;
use crate::{Heard, Table};
use map_messages::MapReply;
use mapping_records::{Eid, Record};
use octets::{Items, NoMemory};
use request_queue::Request;
use router_log::{Done, Entry, Reason, Verdict};
use std::cmp::Ordering;
use std::collections::VecDeque;

impl Table {
    /// Takes a Map-Reply to a request that is open at a moment: the request is answered, and each
    /// record is learned or passed over. A reply without a record that covers the requested EID is
    /// dropped. Where memory is refused, the table is as it was.
    pub(crate) fn learn_reply(
        &mut self,
        site: &Site<'_>,
        m: u64,
        request: &Request,
        reply: &MapReply,
    ) -> Result<Heard, NoMemory>
        requires lawful { IsSite site.now }
        requires may { MayStep m self.old.parts }
        requires range { InRangeReply reply.now }
        requires open { with_nonce (waiting m self.old.parts.requests) reply.now.nonce
            ≡ Some request.now }
        ensures parts { IfOk result (λ heard. heard_seen self.new.parts heard
            ≡ replied_to table site.now m reply.now (Some request.now)
            (unchanged self.old.parts)) }
        ensures quiet { IfOk result (λ heard. heard.emits ≡ []) }
        ensures step { IsStep most_heard m self.old.parts self.new.parts result }
    {
        let mappings = reply.mappings.as_slice();
        if !is_fit(&request.eid, mappings) {
            return Ok(self.dropped(Reason::Unfit));
        }
        let mut entries = Vec::new(self.alloc);
        entries.reserve(1 + mappings.len())?;
        let mut copies = VecDeque::from_vec(all_copies(self.alloc, mappings)?);
        self.reserve_mappings(mappings.len() as u32)?;
        self.answer(m, reply.nonce);
        entries.push_reserved(Entry::Answered {
            moment: m,
            nonce: reply.nonce,
        });
        let grounds = Grounds {
            site,
            m,
            asked: &request.eid,
            mappings,
        };
        self.learn_each(&grounds, mappings, &mut copies, &mut entries);
        let learned = entries.len() - 1;
        let passed_over = mappings.len() - learned;
        Ok(Heard {
            verdict: Verdict::Control(Done::Learned(learned as u32, passed_over as u32)),
            entries: Items::from_vec(entries),
            emits: Items::new(self.alloc),
        })
    }

    // Learns each of these records that may be learned, and passes over the others.
    fn learn_each(
        &mut self,
        grounds: &Grounds<'_>,
        records: &[Record],
        copies: &mut VecDeque<Copies>,
        entries: &mut Vec<Entry>,
    )
        requires lawful { IsSite grounds.now.site.now }
        requires may { MayEnter (length records.now) grounds.now.m self.old.parts }
        requires range { All InRange records.now }
        requires copies { copies.old.items ≡ all_copies records.now }
        requires mapping_room { length records.now ≤ self.old.mapping_room }
        requires room { vec_len entries.old + length records.now ≤ vec_capacity entries.old }
        ensures change { change_of self.new.parts entries.new.items []
            ≡ each (taught table grounds.now.site.now grounds.now.m grounds.now.asked.now
            grounds.now.mappings.now) records.now
            (change_of self.old.parts entries.old.items []) }
        ensures entered { HasEntered (length records.now) grounds.now.m self.old.parts self.new.parts }
        ensures entries { AreAdded (length records.now) entries.old entries.new }
    {
        let [mapping, others @ ..] = records else {
            return;
        };
        let Some(copy) = copies.pop_front() else {
            unreachable!()
        };
        self.learn_one(grounds, mapping, copy, entries);
        self.learn_each(grounds, others, copies, entries);
    }

    // Learns a record, if it may be learned.
    fn learn_one(
        &mut self,
        grounds: &Grounds<'_>,
        mapping: &Record,
        copies: Copies,
        entries: &mut Vec<Entry>,
    )
        requires lawful { IsSite grounds.now.site.now }
        requires may { MayEnter 1 grounds.now.m self.old.parts }
        requires range { InRange mapping.now }
        requires copies { copies ≡ copies_of mapping.now }
        requires mapping_room { 0 < self.old.mapping_room }
        requires room { vec_len entries.old < vec_capacity entries.old }
        ensures change { change_of self.new.parts entries.new.items []
            ≡ taught table grounds.now.site.now grounds.now.m grounds.now.asked.now
            grounds.now.mappings.now mapping.now
            (change_of self.old.parts entries.old.items []) }
        ensures entered { HasEntered 1 grounds.now.m self.old.parts self.new.parts }
        ensures mapping_room { self.old.mapping_room ≤ self.new.mapping_room + 1 }
        ensures entries { AreAdded 1 entries.old entries.new }
    {
        if !self.is_taken(grounds, mapping) {
            return;
        }
        self.keeps_its_limits();
        self.learn(grounds.m, copies.kept, false);
        entries.push_reserved(Entry::Learned {
            moment: grounds.m,
            mapping: copies.told,
            fixed: false,
        });
    }

    // Whether a record is learned: it lies within a record that covers the requested EID, its EID
    // is that of no static mapping, and there is room for it.
    fn is_taken(&self, grounds: &Grounds<'_>, mapping: &Record) -> bool
        requires { IsSite grounds.now.site.now }
        ensures { result ≡ (is_asked_for grounds.now.asked.now grounds.now.mappings.now mapping.now
            && (not (is_static grounds.now.site.now mapping.now)
            && has_room self.now.parts.limits (view_in self.now.parts grounds.now.m)
            mapping.now)) }
    {
        is_asked_for(grounds.asked, grounds.mappings, mapping)
            && !is_static(grounds.site, mapping)
            && self.has_room(grounds.m, mapping)
    }

    /// Whether a mapping may be learned: in place of one of its EID that isn't fixed; without one
    /// it must have TTL 0, or its instance room.
    pub(crate) fn has_room(&self, m: u64, mapping: &Record) -> bool
        ensures { result ≡ has_room self.now.parts.limits (view_in self.now.parts m) mapping.now }
    {
        match self.exact(m, &mapping.eid) {
            Some(live) => !live.fixed,
            None => mapping.ttl == 0 || self.may_learn(m, mapping.eid.iid),
        }
    }

    // Whether there is room for one more learned mapping of an instance.
    fn may_learn(&self, m: u64, iid: u32) -> bool
        ensures { result ≡ nat_lt (learned_in iid (view_in self.now.parts m).mappings)
            (mappings_in self.now.parts.limits iid) }
    {
        self.cache.has_place_in(self.moment_at(m), iid)
    }
}

// Whether one of the records covers the requested EID.
fn is_fit(asked: &Eid, mappings: &[Record]) -> bool
    ensures { result ≡ is_fit asked.now mappings.now }
{
    let [mapping, others @ ..] = mappings else {
        return false;
    };
    mapping.eid.covers(asked) || is_fit(asked, others)
}

// Whether a record lies within one of the records that covers the requested EID.
fn is_asked_for(asked: &Eid, mappings: &[Record], mapping: &Record) -> bool
    ensures { result ≡ is_asked_for asked.now mappings.now mapping.now }
{
    let [wider, others @ ..] = mappings else {
        return false;
    };
    (wider.eid.covers(asked) && wider.eid.covers(&mapping.eid))
        || is_asked_for(asked, others, mapping)
}

// Whether the EID of a record is that of a static mapping. The settings have static mappings in
// order of EID, each EID once.
fn is_static(site: &Site<'_>, mapping: &Record) -> bool
    requires { IsSite site.now }
    ensures { result ≡ is_static site.now mapping.now }
{
    has_eid(site.mappings(), &mapping.eid)
}

// Whether one of these mappings, in ascending order of EID, has that EID.
fn has_eid(mappings: &[Record], eid: &Eid) -> bool
    requires { IsStrictlySortedBy eid_order (map (λ mapping. mapping.eid) mappings.now) }
    ensures { result ≡ list_any (λ mapping. same_eid mapping.eid eid.now) mappings.now }
{
    mappings
        .binary_search_by(
            |mapping: &Record| -> Ordering
                ensures { result ≡ eid_order mapping.now.eid eid.entry.now }
            { mapping.eid.cmp(eid) },
        )
        .is_ok()
}
