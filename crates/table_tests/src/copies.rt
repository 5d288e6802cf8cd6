// Copies of tables: each has what the original has, and a change of the copy leaves the original as
// it is.
ghost use Rattle.std.specs.Prelude.{◌≡◌, length};

use crate::rows::{ATTACHED, cache, eid, locator, on_locators, on_state, queue, record, record_to};
use ip_headers::Addr;
use locator_state::LocatorState;
use map_cache::{LearnFault, MapCache};
use mapping_records::{Eid, Record};
use node_store::{NoMemory, Reads};
use prefix_table::PrefixTable;
use request_queue::{AskFault, RequestQueue};
use std::alloc::Global;
use std::process::Abort;

const FIRST: Addr = Addr::V4(0xc633_6401);

#[test]
fn a_copied_table_has_its_own_pairs(rt: HostRuntime) -> Result<(), NoMemory> {
    let mut table = PrefixTable::new(rt.alloc());
    table.reserve(1)?;
    own_pairs(&rt, eid(&rt, 0x0a00_0000, 8), &mut table)
}

fn own_pairs(rt: &impl Abort, net: Eid, table: &mut PrefixTable<u32>) -> Result<(), NoMemory>
    requires { table.old.spare ≡ 1 }
{
    table.insert(net, 8);
    let mut copy = table.copy(|value| Ok(*value))?;
    assert_eq!(rt; copy.remove(&net), Some(8));
    assert_eq!(rt; table.get(&net, &mut Reads::new()), Some(&8));
    Ok(())
}

#[test]
fn a_copied_cache_has_its_own_mappings(rt: HostRuntime) -> Result<(), LearnFault> {
    let mut cache = cache(&rt, rt.alloc(), ATTACHED)?;
    own_mappings(&rt, rt.alloc(), &mut cache)
}

fn own_mappings(rt: &impl Abort, alloc: Global, cache: &mut MapCache) -> Result<(), LearnFault>
    requires { cache.old.now ≡ 0 }
{
    let net = eid(rt, 0x0a02_0000, 16);
    cache.learn(0, record_to(alloc, net, 1, &[locator(FIRST, 1)])?, false)?;
    let mut copy = cache.copy()?;
    unlearn_in_copy(rt, record(alloc, net, 0), cache, &mut copy)
}

fn unlearn_in_copy(
    rt: &impl Abort,
    unlearned: Record,
    cache: &MapCache,
    copy: &mut MapCache,
) -> Result<(), LearnFault>
    requires now { cache.now.now ≡ 0 }
    requires copy_now { copy.old.now ≡ 0 }
    requires locators { length unlearned.locators ≡ 0 }
{
    let net = unlearned.eid;
    assert_eq!(rt; copy.next_locator(0, None), Some((FIRST, net)));
    copy.learn(0, unlearned, false)?;
    assert_eq!(rt; copy.next_locator(0, None), None);
    assert_eq!(rt; cache.next_locator(0, None), Some((FIRST, net)));
    Ok(())
}

#[test]
fn a_copied_queue_has_its_own_requests(rt: HostRuntime) -> Result<(), AskFault> {
    let mut queue = queue(&rt, rt.alloc(), ATTACHED)?;
    own_requests(&rt, &mut queue)
}

fn own_requests(rt: &impl Abort, queue: &mut RequestQueue) -> Result<(), AskFault> {
    queue.ask(0, eid(rt, 0x0a02_0000, 16), None, false, 42)?;
    let mut copy = queue.copy()?;
    take_from_copy(rt, queue, &mut copy);
    Ok(())
}

fn take_from_copy(rt: &impl Abort, queue: &RequestQueue, copy: &mut RequestQueue) {
    assert_eq!(rt; copy.open_count(0), 1);
    copy.answer(42);
    assert_eq!(rt; copy.open_count(0), 0);
    assert_eq!(rt; queue.open_count(0), 1);
}

#[test]
fn copied_locators_have_their_own_probes(rt: HostRuntime) -> Result<(), NoMemory> {
    on_locators(rt.alloc(), |state| own_probes(&rt, state))
}

fn own_probes(rt: &impl Abort, state: &mut LocatorState) -> Result<(), NoMemory> {
    state.probed(0, FIRST, 42)?;
    let state = &*state;
    on_state(state.copy()?, |copy| answer_in_copy(rt, state, copy))
}

fn answer_in_copy(
    rt: &impl Abort,
    state: &LocatorState,
    copy: &mut LocatorState,
) -> Result<(), NoMemory> {
    assert_eq!(rt; copy.probe_open(0, 42), Some(FIRST));
    copy.probe_answered(0, 42);
    assert_eq!(rt; copy.probe_open(0, 42), None);
    assert_eq!(rt; state.probe_open(0, 42), Some(FIRST));
    Ok(())
}
