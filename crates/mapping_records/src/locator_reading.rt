// Reading of locators.
ghost use Rattle.std.specs.Prelude.{◌≡◌, ◌≤◌, ◌<◌, ◌+◌, ◌^◌, length, IfOk};
ghost use Rattle.octets.specs.Refusals.{refusal_of};
ghost use Rattle.octets.specs.Rules.{first_failing};
ghost use Rattle.mapping_records.specs.Locator.{flag_at, locator_at, locator_rules, locator_size, locators_at, locators_rules, locators_size};
ghost use Rattle.mapping_records.specs.Record.{RefusesBy};

use crate::places::{addr_at, addr_size, has_addr, refused};
use crate::{Locator, Locators, RecordFault};
use octets::{Refused, Why, big_16};
use std::alloc::Global;

/// The octets of the least locator. They bound the room for locators, so that a wrong count
/// reserves no more than the octets can hold.
const LEAST: usize = 12;

/// So many locators at the front of the octets, and the octets consumed.
pub(crate) fn read_locators(
    alloc: Global,
    count: u8,
    octets: &[u8],
    base: u32,
) -> Result<(Locators, u32), RecordFault>
    requires { base + length octets.now < 2 ^ 32 }
    ensures refused { RefusesBy (first_failing (locators_rules count base octets.now)) result }
    ensures value { IfOk result (λ read. read ≡ (locators_at count octets.now, locators_size count octets.now)) }
    ensures count { IfOk result (λ read. length read.0 ≡ count) }
    ensures inside { IfOk result (λ read. read.1 ≤ length octets.now) }
{
    let room = usize::from(count).min(octets.len() / LEAST);
    let mut locators = Locators::with_capacity(alloc, room)?;
    let mut at = 0;
    for _ in 0..count {
        let (_, rest) = octets.split_at(at as usize);
        let (locator, size) = read_locator(rest, base + at)?;
        locators.push(locator)?;
        at += size;
    }
    Ok((locators, at))
}

fn read_locator(octets: &[u8], base: u32) -> Result<(Locator, u32), Refused>
    requires { base + length octets.now < 2 ^ 32 }
    ensures refused { refusal_of result ≡ first_failing (locator_rules base octets.now) }
    ensures value { IfOk result (λ read. read ≡ (locator_at octets.now, locator_size octets.now)) }
    ensures inside { IfOk result (λ read. read.1 ≤ length octets.now) }
{
    if octets.len() < 8 {
        return Err(refused(base, Why::Short));
    }
    let afi = big_16(octets, 6);
    if !has_addr(afi) {
        return Err(refused(base + 6, Why::Afi));
    }
    let size = 8 + addr_size(afi);
    if octets.len() < size {
        return Err(refused(base + 8, Why::Short));
    }
    Ok((locator_at(octets), size as u32))
}

fn locator_at(octets: &[u8]) -> Locator
    requires { locator_size octets.now ≤ length octets.now }
    ensures { result ≡ locator_at octets.now }
{
    let flags = octets[5];
    Locator {
        addr: addr_at(big_16(octets, 6), octets, 8),
        priority: octets[0],
        weight: octets[1],
        m_priority: octets[2],
        m_weight: octets[3],
        local: flags / 4 % 2 == 1,
        probed: flags / 2 % 2 == 1,
        reachable: flags % 2 == 1,
    }
}
