// EIDs, records, and empty tables for rows.
ghost use Rattle.std.specs.Prelude.{◌≡◌, IfOk, length};

use ip_headers::{Addr, Prefix};
use lisp_settings::{Limits, limits_of, read_settings};
use locator_state::LocatorState;
use map_cache::MapCache;
use mapping_records::{Eid, Locator, Locators, NoMemory, Record};
use request_queue::RequestQueue;
use std::alloc::Global;
use std::process::Abort;

/// A second, in nanoseconds.
pub const SECOND: u64 = 1_000_000_000;

/// The attachment of instance 100 alone, which shares with no other instance.
pub const ATTACHED: &str = "[[attachment]]\nvlan = 0\niid = 100\n";

/// A prefix of an IPv4 address, of instance 100.
pub fn eid(rt: &impl Abort, address: u32, len: u8) -> Eid {
    let prefix = Prefix::new(Addr::V4(address), len).expect(rt, "at most 32 bits");
    Eid { iid: 100, prefix }
}

/// The limits of instances, by settings that have these tables.
pub fn limits(rt: &impl Abort, alloc: Global, tables: &str) -> Result<Limits, NoMemory> {
    let text = format!(in alloc; "[[locator]]\naddress = '192.0.2.1'\n{tables}")?;
    let settings = read_settings(alloc, text.as_bytes()).expect(rt, "settings without a fault");
    limits_of(alloc, &settings)
}

/// A queue without requests, with the limits of settings that have these tables.
pub fn queue(rt: &impl Abort, alloc: Global, tables: &str) -> Result<RequestQueue, NoMemory> {
    let limits = limits(rt, alloc, tables)?;
    RequestQueue::new(alloc, &limits)
}

/// The record of a mapping without locators, with its TTL in minutes.
pub fn record(alloc: Global, eid: Eid, ttl: u32) -> Record
    ensures ttl { result.ttl ≡ ttl }
    ensures locators { length result.locators ≡ 0 }
{
    record_with(eid, ttl, Locators::new(alloc))
}

fn record_with(eid: Eid, ttl: u32, locators: Locators) -> Record
    ensures ttl { result.ttl ≡ ttl }
    ensures locators { result.locators ≡ locators }
{
    Record {
        ttl,
        action: 0,
        authoritative: true,
        version: 0,
        eid,
        locators,
    }
}

/// A locator with that address and priority.
pub fn locator(addr: Addr, priority: u8) -> Locator {
    Locator {
        addr,
        priority,
        weight: 100,
        m_priority: 255,
        m_weight: 0,
        local: false,
        probed: false,
        reachable: true,
    }
}

/// The record of a mapping to locators, with its TTL in minutes.
pub fn record_to(
    alloc: Global,
    eid: Eid,
    ttl: u32,
    locators: &[Locator],
) -> Result<Record, NoMemory>
    ensures ttl { IfOk result (λ mapping. mapping.ttl ≡ ttl) }
    ensures locators { IfOk result (λ mapping. mapping.locators ≡ locators.now) }
{
    let locators = Vec::from_slice(alloc, locators)?;
    Ok(record_with(eid, ttl, Locators::from_vec(locators)))
}

/// Runs a test on a state of locators, and alone drops that state.
pub fn on_state<F>(mut state: LocatorState, test: F) -> Result<(), NoMemory>
where
    F: FnOnce(&mut LocatorState) -> Result<(), NoMemory>,
    requires { F.IsAlwaysCallable test }
{
    test(&mut state)
}

/// Runs a test on an empty state of locators.
pub fn on_locators<F>(alloc: Global, test: F) -> Result<(), NoMemory>
where
    F: FnOnce(&mut LocatorState) -> Result<(), NoMemory>,
    requires { F.IsAlwaysCallable test }
{
    on_state(LocatorState::new(alloc), test)
}

/// A cache without mappings, with the limits of settings that have these tables.
pub fn cache(rt: &impl Abort, alloc: Global, tables: &str) -> Result<MapCache, NoMemory>
    ensures { IfOk result (λ cache. cache.now ≡ 0) }
{
    let limits = limits(rt, alloc, tables)?;
    MapCache::new(alloc, &limits)
}
