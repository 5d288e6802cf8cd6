// The EIDs that requests are for, in a trie, each with the latest start of its requests.
ghost use Rattle.std.specs.Prelude.{◌≡◌, ◌≤◌, ◌<◌, ◌+◌, ◌++◌, ◌∷◌, [], ◌^◌, IsSome, List, length};
ghost use Rattle.std.specs.Option.{option_copied};
ghost use Rattle.keyed_list.specs.Keyed.{greater};
ghost use Rattle.prefix_table.specs.Limits.{most_nodes};
ghost use Rattle.prefix_table.specs.Pairs.{value_in};
ghost use Rattle.request_queue.specs.Found.{AreEids, with_latest};
ghost use Rattle.request_queue.specs.Queue.{covered, waiting};
ghost use Rattle.request_queue.specs.declared.request.Request.{Request};

use crate::searching::waits;
use crate::{Reads, Request};
use mapping_records::Eid;
use prefix_table::PrefixTable;

/// Whether an open request is for an EID that covers this one. Reads at most `MOST_NODES` nodes of
/// the trie, and no request.
pub(crate) fn is_covered(m: u64, eid: &Eid, eids: &PrefixTable<u64>, reads: &mut Reads) -> bool
    requires { reads.old < 2 ^ 63 }
    ensures covered { (requests : List Request) → AreEids eids.now.pairs requests
        → result ≡ covered (waiting m requests) eid.now }
    ensures counted { reads.old ≤ reads.new }
    ensures bound { reads.new ≤ reads.old + most_nodes }
{
    eids.longest_where(eid, |start| waits(m, *start), reads)
        .is_some()
}

// The later of two starts, or the only one.
fn later(best: Option<&u64>, start: u64) -> u64
    ensures { result ≡ greater (option_copied best.entry) start }
{
    match best {
        None => start,
        Some(best) => start.max(*best),
    }
}

/// Adds the EID of a request that comes at the end of the list to the trie. Takes no memory.
pub(crate) fn add_eid(request: &Request, eids: &mut PrefixTable<u64>)
    requires { 0 < eids.old.spare }
    ensures eids { (requests : List Request) → AreEids eids.old.pairs requests
        → AreEids eids.new.pairs (requests ++ request.now ∷ []) }
    ensures spare { eids.old.spare ≤ eids.new.spare + 1 }
    ensures total { length eids.new.pairs + eids.new.spare
        ≡ length eids.old.pairs + eids.old.spare }
{
    let start = later(eids.get(&request.eid, &mut Reads::new()), request.start);
    eids.insert(request.eid, start);
    // The call of `len` brings the fact that EIDs ascend.
    let _ = eids.len();
}

/// Gives an EID its latest start in the trie, or takes it out where there is none. Takes no memory.
pub(crate) fn tell_latest(eid: &Eid, latest: Option<u64>, eids: &mut PrefixTable<u64>)
    requires { IsSome (value_in eid.now eids.old.pairs) }
    ensures pairs { eids.new.pairs ≡ with_latest eid.now latest eids.old.pairs }
    ensures spare { eids.old.spare ≤ eids.new.spare }
    ensures one { eids.new.spare ≤ eids.old.spare + 1 }
    ensures total { length eids.new.pairs + eids.new.spare
        ≡ length eids.old.pairs + eids.old.spare }
{
    match latest {
        None => {
            eids.remove(eid);
        }
        Some(start) => {
            eids.insert(*eid, start);
        }
    }
}
