// Fixed mappings, and mappings within each other.
ghost use Rattle.std.specs.Prelude.{◌≡◌};

use crate::rows::{ATTACHED, SECOND, cache, eid, record};
use ip_headers::{Addr, Prefix};
use map_cache::{LearnFault, MapCache};
use mapping_records::Eid;
use node_store::{NoMemory, Reads};
use std::alloc::Global;
use std::process::Abort;

const MINUTE: u64 = 60 * SECOND;

#[test]
fn a_fixed_mapping_has_no_end_and_a_ttl_of_0_takes_it_away(
    rt: HostRuntime,
) -> Result<(), LearnFault> {
    let mut cache = cache(&rt, rt.alloc(), ATTACHED)?;
    fixed_without_end(&rt, rt.alloc(), &mut cache)
}

fn fixed_without_end(rt: &impl Abort, alloc: Global, cache: &mut MapCache) -> Result<(), LearnFault>
    requires { cache.old.now ≡ 0 }
{
    cache.reserve(1, 32)?;
    let tenant = eid(rt, 0x0a02_0000, 16);
    cache.learn(0, record(alloc, tenant, 1), true)?;
    cache.purge(MINUTE);
    assert_eq!(rt; cache.now(), MINUTE);
    assert_eq!(rt; cache.live_count(MINUTE), 1);
    cache.learn(MINUTE, record(alloc, tenant, 0), false)?;
    assert_eq!(rt; cache.live_count(MINUTE), 0);
    Ok(())
}

// The attachments of all instances below a number, as settings have them.
fn attached(alloc: Global, instances: u32) -> Result<String, NoMemory> {
    let mut tables = String::new(alloc);
    for iid in 0..instances {
        let table = format!(in alloc; "[[attachment]]\nvlan = {iid}\niid = {iid}\n")?;
        tables.push_str(table.as_str())?;
    }
    Ok(tables)
}

// Learns all prefixes of the last IPv6 address but the shortest, in each of 512 instances: those of
// even length for a minute, the others for two.
fn nest(alloc: Global, cache: &mut MapCache) -> Result<(), LearnFault>
    requires { cache.old.now ≡ 0 }
    ensures { cache.new.now ≡ 0 }
{
    for iid in 0..512_u32 {
        for len in 1..=128_u8 {
            if let Some(prefix) = Prefix::new(Addr::V6(u128::MAX), len) {
                let ttl = 1 + u32::from(len) % 2;
                cache.learn(0, record(alloc, Eid { iid, prefix }, ttl), false)?;
            }
        }
    }
    Ok(())
}

#[test]
fn among_65_536_nested_mappings_the_longest_is_found(rt: HostRuntime) -> Result<(), LearnFault> {
    let attached = attached(rt.alloc(), 512)?;
    let mut cache = cache(&rt, rt.alloc(), attached.as_str())?;
    longest_of_nested(&rt, rt.alloc(), &mut cache)
}

fn longest_of_nested(rt: &impl Abort, alloc: Global, cache: &mut MapCache) -> Result<(), LearnFault>
    requires { cache.old.now ≡ 0 }
{
    nest(alloc, cache)?;
    assert_eq!(rt; cache.len(), 65_536);
    let rows = [
        (0, u128::MAX, Some(128)),
        (0, u128::MAX - 1, Some(127)),
        (0, 1 << 127, Some(1)),
        (0, 1, None),
        (MINUTE, u128::MAX, Some(127)),
        (2 * MINUTE, u128::MAX, None),
    ];
    for (moment, addr, len) in rows {
        let host = Eid {
            iid: 511,
            prefix: Prefix::host(Addr::V6(addr)),
        };
        let mut reads = Reads::new();
        let found = cache.in_force(moment, &host, &mut reads);
        assert_eq!(rt; found.map(|mapping| mapping.eid.prefix.len), len);
        assert!(rt; reads.count() <= 129);
    }
    Ok(())
}
