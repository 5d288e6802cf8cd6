// Two indexes of the list of requests: EIDs with the latest start of their requests, and terms that
// count an instance's requests.
ghost use Rattle.std.specs.Prelude.{◌≡◌, ◌≤◌, ◌<◌, ◌+◌, ◌^◌, ◌++◌, ◌∷◌, [], true, length, max, IfOk, IsOk, OnOk};
ghost use Rattle.std.specs.List.{remove};
ghost use Rattle.prefix_table.specs.Limits.{most_pairs};
ghost use Rattle.request_queue.specs.Found.{AreFound, least_of, places_of};
ghost use Rattle.request_queue.specs.Lists.{are_distinct};

use crate::eids::{add_eid, tell_latest};
use crate::term::Term;
use crate::terms::{add_term, drop_term};
use crate::{NoMemory, Request};
use keyed_list::{Key, KeyedList};
use ordered_set::OrderedSet;
use prefix_table::PrefixTable;
use std::alloc::Global;

/// Finds requests by EID, and counts those of an instance.
#[derive(Drop)]
pub(crate) struct Index {
    // The EIDs of the requests, each with the latest start of its requests.
    pub(crate) eids: PrefixTable<u64>,
    // One term for each request.
    pub(crate) terms: OrderedSet<Term>,
}

impl Index {
    /// The index of an empty list. Takes no memory.
    pub(crate) fn new(alloc: Global) -> Index
        ensures eids { result.eids.pairs ≡ [] }
        ensures terms { result.terms.keys ≡ [] }
        ensures least { least_of result ≡ 0 }
        ensures places { places_of result ≡ 0 }
    {
        Index {
            eids: PrefixTable::new(alloc),
            terms: OrderedSet::new(alloc),
        }
    }

    /// An equal index of its own, with as much room.
    pub(crate) fn copy(&self) -> Result<Index, NoMemory>
        ensures { IfOk result (λ copy. copy ≡ self.now) }
    {
        let eids = self.eids.copy(|start| Ok(*start))?;
        let terms = self.terms.copy()?;
        Ok(Index { eids, terms })
    }

    /// Makes place for so many requests in all.
    pub(crate) fn reserve(&mut self, all: u32) -> Result<(), NoMemory>
        requires eids { length self.old.eids.pairs ≤ all }
        requires terms { length self.old.terms.keys ≤ all }
        requires all { all ≤ most_pairs }
        ensures eids { self.new.eids.pairs ≡ self.old.eids.pairs }
        ensures terms { self.new.terms.keys ≡ self.old.terms.keys }
        ensures least { least_of self.old ≤ least_of self.new }
        ensures at_most { least_of self.new ≤ max (least_of self.old) all }
        ensures places { places_of self.new ≤ max (places_of self.old) all }
        ensures ok { OnOk result (all ≤ least_of self.new) }
        ensures enough { all ≤ least_of self.old → IsOk result }
    {
        let eids = all - self.eids.len();
        let terms = all - self.terms.len() as u32;
        self.eids.reserve(eids)?;
        self.terms.reserve(terms)
    }
}

/// Law: there are no more EIDs than requests, and no more terms.
pub(crate) fn count_found(requests: &KeyedList<Request>, index: &Index) -> usize
    requires { AreFound index.now requests.now.items }
    ensures len { result ≡ length requests.now.items }
    ensures eids { length index.now.eids.pairs ≤ result }
    ensures terms { length index.now.terms.keys ≤ result }
{
    // The calls of `len` bring the fact that EIDs and terms ascend.
    let _ = (index.eids.len(), index.terms.len());
    requests.len()
}

/// Adds a request at the end of the list, and to the index. Takes no memory.
pub(crate) fn add_request(request: Request, requests: &mut KeyedList<Request>, index: &mut Index)
    requires room { 0 < requests.old.room }
    requires least { length requests.old.items < least_of index.old }
    requires found { AreFound index.old requests.old.items }
    ensures requests { requests.new.items ≡ requests.old.items ++ request ∷ [] }
    ensures len { length requests.new.items ≡ length requests.old.items + 1 }
    ensures room { requests.new.room + 1 ≡ requests.old.room }
    ensures found { AreFound index.new requests.new.items }
    ensures places { requests.new.places ≡ requests.old.places }
    ensures least { least_of index.new ≡ least_of index.old }
    ensures total { places_of index.new ≡ places_of index.old }
{
    // There are no more EIDs and terms than requests, so that there is a place for one more.
    let _ = count_found(requests, index);
    add_eid(&request, &mut index.eids);
    add_term(&request, &mut index.terms);
    requests.push(request);
}

/// Takes the request at a place out of the list and the index. Takes no memory.
pub(crate) fn drop_request(place: usize, requests: &mut KeyedList<Request>, index: &mut Index)
    requires place { place < length requests.old.items }
    requires distinct { are_distinct requests.old.items ≡ true }
    requires found { AreFound index.old requests.old.items }
    ensures requests { requests.new.items ≡ remove requests.old.items place }
    ensures room { requests.old.room ≤ requests.new.room }
    ensures found { AreFound index.new requests.new.items }
    ensures places { requests.new.places ≡ requests.old.places }
    ensures rooms { length requests.new.items + requests.new.room
        ≤ length requests.old.items + requests.old.room }
    ensures least { least_of index.new ≡ least_of index.old }
    ensures total { places_of index.new ≡ places_of index.old }
{
    let request = requests.remove(place);
    let latest = requests.latest(&Key::eid(&request.eid));
    tell_latest(&request.eid, latest, &mut index.eids);
    // The call of `len` brings the fact that EIDs ascend.
    let _ = index.eids.len();
    drop_term(&request, &mut index.terms);
}
