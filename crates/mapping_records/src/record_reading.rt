// Reading of mapping records.
ghost use Rattle.std.specs.Prelude.{◌≡◌, ◌≤◌, ◌<◌, ◌+◌, ◌^◌, length, IfOk};
ghost use Rattle.octets.specs.Refusals.{refusal_of};
ghost use Rattle.octets.specs.Rules.{first_failing};
ghost use Rattle.mapping_records.specs.Eid.{eid_size};
ghost use Rattle.mapping_records.specs.Record.{eid_prefix_rules, record_rules, record_size, InRange, IsEidPrefix, IsRecordAt, RefusesBy};

use crate::locator_reading::read_locators;
use crate::places::refused;
use crate::{Eid, Record, RecordFault, read_eid};
use ip_headers::Prefix;
use octets::{Refused, Why, big_16, big_32};
use std::alloc::Global;

/// The EID prefix that begins with its AFI and has that mask length, and the octets consumed. The
/// mask length stands at `len_place`. Bits past it are cleared, and AFI 0 is refused.
pub fn read_eid_prefix(
    octets: &[u8],
    base: u32,
    len: u8,
    len_place: u32,
) -> Result<(Eid, u32), Refused>
    requires { base + length octets.now < 2 ^ 32 }
    ensures refused { refusal_of result ≡ first_failing (eid_prefix_rules base octets.now len len_place) }
    ensures value { IfOk result (λ read. IsEidPrefix octets.now len read.0) }
    ensures size { IfOk result (λ read. read.1 ≡ eid_size octets.now) }
    ensures inside { IfOk result (λ read. read.1 ≤ length octets.now) }
{
    let (iid, host, size) = read_eid(octets, base)?;
    let Some(addr) = host else {
        return Err(refused(base, Why::Afi));
    };
    let Some(prefix) = Prefix::new(addr, len) else {
        return Err(refused(len_place, Why::MaskLength));
    };
    Ok((Eid { iid, prefix }, size))
}

/// The record at the front of the octets, and the octets consumed. Places count from `base`.
pub fn read_record(alloc: Global, octets: &[u8], base: u32) -> Result<(Record, u32), RecordFault>
    requires { base + length octets.now < 2 ^ 32 }
    ensures refused { RefusesBy (first_failing (record_rules base octets.now)) result }
    ensures value { IfOk result (λ read. IsRecordAt octets.now read.0) }
    ensures size { IfOk result (λ read. read.1 ≡ record_size octets.now) }
    ensures range { IfOk result (λ read. InRange read.0) }
    ensures inside { IfOk result (λ read. read.1 ≤ length octets.now) }
{
    if octets.len() < 10 {
        return Err(RecordFault::Refused(refused(base, Why::Short)));
    }
    let (_, rest) = octets.split_at(10);
    let (eid, eid_size) = read_eid_prefix(rest, base + 10, octets[5], base + 5)?;
    let at = 10 + eid_size;
    let (_, rest) = octets.split_at(at as usize);
    let (locators, size) = read_locators(alloc, octets[4], rest, base + at)?;
    let mapping = Record {
        ttl: big_32(octets, 0),
        action: octets[6] / 32,
        authoritative: octets[6] / 16 % 2 == 1,
        version: big_16(octets, 8) % 4096,
        eid,
        locators,
    };
    Ok((mapping, at + size))
}
