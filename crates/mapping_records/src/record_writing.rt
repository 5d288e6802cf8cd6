// Writing of mapping records.
ghost use Rattle.std.specs.Prelude.{◌≡◌, ◌≤◌, ◌++◌, OnOk, OnErr, length};
ghost use Rattle.mapping_records.specs.Locator.{canonical_locator, canonical_locators, locator_head};
ghost use Rattle.mapping_records.specs.Record.{canonical_head, canonical_record, InRange};

use crate::{Locator, Record, write_eid};
use ip_headers::Addr;
use octets::{NoMemory, Octets};
use std::alloc::Global;

// How many octets are reserved before a record is written: most records have no more.
const FIRST_ROOM: usize = 64;

/// Appends a record, its ignored bits 0. Without memory `out` stays as it was.
pub fn write_record(alloc: Global, mapping: &Record, out: &mut Octets) -> Result<(), NoMemory>
    requires { InRange mapping.now }
    ensures ok { OnOk result (out.new ≡ out.old ++ canonical_record mapping.now) }
    ensures err { OnErr result (out.new ≡ out.old) }
{
    let mut octets = Octets::with_capacity(alloc, FIRST_ROOM)?;
    octets.append(&head(mapping))?;
    write_eid(&mapping.eid, &mut octets)?;
    write_locators(mapping.locators.as_slice(), &mut octets)?;
    out.append(octets.as_slice())
}

// The first ten octets of a record, up to its EID.
fn head(mapping: &Record) -> [u8; 10]
    requires { InRange mapping.now }
    ensures { result ≡ canonical_head mapping.now }
{
    let [a, b, c, d] = mapping.ttl.to_be_bytes();
    let count = mapping.locators.len() as u8;
    let authoritative = if mapping.authoritative { 16 } else { 0 };
    let action = mapping.action * 32 + authoritative;
    let [e, f] = mapping.version.to_be_bytes();
    [a, b, c, d, count, mapping.eid.prefix.len, action, 0, e, f]
}

fn write_locators(locators: &[Locator], out: &mut Octets) -> Result<(), NoMemory>
    ensures { OnOk result (out.new ≡ out.old ++ canonical_locators locators.now) }
{
    for locator in locators {
        write_locator(locator, out)?;
    }
    Ok(())
}

fn write_locator(locator: &Locator, out: &mut Octets) -> Result<(), NoMemory>
    ensures { OnOk result (out.new ≡ out.old ++ canonical_locator locator.now) }
{
    match locator.addr {
        Addr::V4(n) => out.append_both(&locator_head(locator, 1), &n.to_be_bytes()),
        Addr::V6(n) => out.append_both(&locator_head(locator, 2), &n.to_be_bytes()),
    }
}

// The first eight octets of a locator, up to its address.
fn locator_head(locator: &Locator, afi: u8) -> [u8; 8]
    ensures { result ≡ locator_head locator.now afi }
{
    let local = if locator.local { 4 } else { 0 };
    let probed = if locator.probed { 2 } else { 0 };
    let reachable = if locator.reachable { 1 } else { 0 };
    [
        locator.priority,
        locator.weight,
        locator.m_priority,
        locator.m_weight,
        0,
        local + probed + reachable,
        0,
        afi,
    ]
}
