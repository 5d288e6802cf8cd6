// Node stores and prefix tables.
use mapping_records::{Addr, Eid, Prefix};
use node_store::{NoMemory, NodeStore, Reads};
use prefix_table::PrefixTable;
use std::process::Abort;

// 10.0.0.0, as a number.
const TEN: u32 = 0x0a00_0000;

// An EID of instance 0.
fn eid(rt: &impl Abort, addr: Addr, len: u8) -> Eid {
    let prefix = Prefix::new(addr, len).expect(rt, "no longer than the address");
    Eid { iid: 0, prefix }
}

// A prefix of IPv4 in instance 0.
fn v4(rt: &impl Abort, addr: u32, len: u8) -> Eid {
    eid(rt, Addr::V4(addr), len)
}

// Puts a pair, with room made for it.
fn put(table: &mut PrefixTable<u32>, eid: Eid, value: u32) -> Result<Option<u32>, NoMemory> {
    if table.len() > 1_000_000 {
        return Err(NoMemory);
    }
    table.reserve(1)?;
    Ok(table.insert(eid, value))
}

#[test]
fn a_node_is_read_written_and_dropped_under_its_name(rt: HostRuntime) -> Result<(), NoMemory> {
    let mut store = NodeStore::new(rt.alloc());
    store.make_room(2)?;
    assert_eq!(rt; store.rooms(), 2);
    let first = store.put(40_u64);
    let second = store.put(50);
    assert_ne!(rt; first, second);
    assert_eq!(rt; store.rooms(), 0);
    let mut reads = Reads::new();
    assert_eq!(rt; *store.read(first, &mut reads), 40);
    *store.edit(first) = 41;
    assert_eq!(rt; *store.read(first, &mut reads), 41);
    assert_eq!(rt; *store.read(second, &mut reads), 50);
    assert_eq!(rt; reads.count(), 3);
    assert_eq!(rt; store.drop_node(first), 41);
    assert_eq!(rt; store.rooms(), 1);
    Ok(())
}

#[test]
fn a_pair_is_put_replaced_and_taken_out(rt: HostRuntime) -> Result<(), NoMemory> {
    let mut table = PrefixTable::new(rt.alloc());
    put_replaced_and_taken_out(&rt, &mut table)
}

fn put_replaced_and_taken_out(
    rt: &impl Abort,
    table: &mut PrefixTable<u32>,
) -> Result<(), NoMemory> {
    let mut reads = Reads::new();
    let net = v4(rt, TEN, 8);
    let below = v4(rt, TEN, 16);
    let beside = v4(rt, TEN + 0x0080_0000, 9);
    for (key, value) in [(net, 1), (below, 2), (beside, 3)] {
        assert_eq!(rt; put(table, key, value)?, None);
    }
    assert_eq!(rt; put(table, net, 4)?, Some(1));
    assert_eq!(rt; table.len(), 3);
    assert_eq!(rt; table.get(&net, &mut reads), Some(&4));
    assert_eq!(rt; table.remove(&net), Some(4));
    assert_eq!(rt; table.remove(&net), None);
    assert_eq!(rt; table.len(), 2);
    Ok(())
}

#[test]
fn pairs_come_in_order_of_eid(rt: HostRuntime) -> Result<(), NoMemory> {
    let mut table = PrefixTable::new(rt.alloc());
    in_order(&rt, &mut table)
}

fn in_order(rt: &impl Abort, table: &mut PrefixTable<u32>) -> Result<(), NoMemory> {
    let net = v4(rt, TEN, 8);
    let below = v4(rt, TEN, 16);
    let beside = v4(rt, TEN + 0x0080_0000, 9);
    let longer = eid(rt, Addr::V6(0), 128);
    let other = Eid {
        iid: 1,
        prefix: net.prefix,
    };
    for (key, value) in [(other, 5), (beside, 3), (longer, 4), (below, 2), (net, 1)] {
        put(table, key, value)?;
    }
    let mut pairs = table.iter();
    for (key, value) in [(net, 1), (below, 2), (beside, 3), (longer, 4), (other, 5)] {
        assert_eq!(rt; pairs.next(), Some((&key, &value)));
    }
    assert_eq!(rt; pairs.next(), None);
    Ok(())
}

#[test]
fn the_longest_that_covers_and_passes_is_found(rt: HostRuntime) -> Result<(), NoMemory> {
    let mut table = PrefixTable::new(rt.alloc());
    longest_that_passes(&rt, &mut table)
}

// Puts nets within each other, one of another instance, and one of IPv6 into the table.
fn put_nets(rt: &impl Abort, table: &mut PrefixTable<u32>) -> Result<(), NoMemory> {
    let other = Eid {
        iid: 8,
        prefix: v4(rt, TEN + 0x0001_0200, 24).prefix,
    };
    let six = eid(rt, Addr::V6(0x0a01_0203 << 96), 8);
    put(table, v4(rt, 0, 0), 0)?;
    put(table, v4(rt, TEN, 8), 8)?;
    put(table, v4(rt, TEN + 0x0001_0000, 16), 16)?;
    put(table, other, 24)?;
    put(table, six, 6)?;
    Ok(())
}

fn longest_that_passes(rt: &impl Abort, table: &mut PrefixTable<u32>) -> Result<(), NoMemory> {
    put_nets(rt, table)?;
    for (addr, most, found) in [
        (TEN + 0x0001_0203, 99, Some((16, 16))),
        (TEN + 0x0001_0203, 15, Some((8, 8))),
        (TEN + 0x0001_0203, 7, Some((0, 0))),
        (TEN + 0x0002_0203, 99, Some((8, 8))),
        (0xc000_0201, 99, Some((0, 0))),
    ] {
        let mut reads = Reads::new();
        let answer = table.longest_where(&v4(rt, addr, 32), |value| *value <= most, &mut reads);
        assert_eq!(rt;
            answer.map(|(key, value)| (key.prefix.len, *value)),
            found,
            "{addr:x} {most}"
        );
        assert!(rt; reads.count() <= 129);
    }
    Ok(())
}

#[test]
fn no_host_prefix_is_read_that_is_not_on_the_way(rt: HostRuntime) -> Result<(), NoMemory> {
    let mut table = PrefixTable::new(rt.alloc());
    put_hosts(&rt, &mut table)?;
    none_but_on_the_way(&rt, &table);
    Ok(())
}

// Puts 65,534 hosts of 10.0.0.0/8, that net, and 0.0.0.0/0 into the table.
fn put_hosts(rt: &impl Abort, table: &mut PrefixTable<u32>) -> Result<(), NoMemory> {
    put(table, v4(rt, 0, 0), 0)?;
    put(table, v4(rt, TEN, 8), 8)?;
    for host in 1..=65_534_u32 {
        put(table, v4(rt, TEN + host, 32), 32)?;
    }
    Ok(())
}

fn none_but_on_the_way(rt: &impl Abort, table: &PrefixTable<u32>) {
    assert_eq!(rt; table.len(), 65_536);
    let mut reads = Reads::new();
    let host = v4(rt, TEN + 0x8001, 32);
    let found = table.longest_where(&host, |value| *value != 32, &mut reads);
    let (key, value) = found.expect(rt, "something covers it");
    assert_eq!(rt; *key, v4(rt, TEN, 8));
    assert_eq!(rt; *value, 8);
    assert!(rt; reads.count() <= 129);
}
