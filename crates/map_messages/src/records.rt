// Mapping records in messages.
ghost use Rattle.std.specs.Prelude.{◌≡◌, ◌≤◌, ◌<◌, ◌+◌, ◌^◌, ◌++◌, length, IfOk, IfSome, OnOk, flat_map, option_to_list};
ghost use Rattle.octets.specs.Rules.{first_failing};
ghost use Rattle.mapping_records.specs.Record.{canonical_record, record_rules, record_size, InRange, IsRecordAt, RefusesBy};
ghost use Rattle.map_messages.specs.Request.{piggyback_rules, record_place, request_size, IsPiggyback};

use crate::items::Item;
use crate::places::bit;
use crate::{MessageFault, NoMemory, Octets, Record};
use mapping_records::{read_record, write_record};
use std::alloc::Global;

impl Item for Record {
    ghost rules = { record_rules };

    ghost size = { record_size };

    ghost IsAt = { IsRecordAt };

    ghost InRange = { InRange };

    ghost canonical = { canonical_record };

    fn read(alloc: Global, octets: &[u8], base: u32) -> Result<(Record, u32), MessageFault> {
        read_record(alloc, octets, base)
    }

    fn write(&self, alloc: Global, out: &mut Octets) -> Result<(), NoMemory> {
        write_record(alloc, self, out)
    }
}

/// The Map-Reply record of a Map-Request, which is there where M is set, and the place where the
/// Map-Request ends.
#[tactic(auto, unfolding(crate::specs::Request::request_size))]
pub(crate) fn read_piggyback(
    alloc: Global,
    octets: &[u8],
    at: u32,
    base: u32,
) -> Result<(Option<Record>, u32), MessageFault>
    requires room { base + length octets.now < 2 ^ 32 }
    requires head { 1 ≤ length octets.now }
    requires place { at ≡ record_place octets.now }
    requires inside { at ≤ length octets.now }
    ensures refused { RefusesBy (first_failing (piggyback_rules base octets.now)) result }
    ensures value { IfOk result (λ read. IsPiggyback octets.now read.0) }
    ensures range { IfOk result (λ read. IfSome read.0 InRange) }
    ensures end { IfOk result (λ read. read.1 ≡ request_size octets.now) }
    ensures inside { IfOk result (λ read. read.1 ≤ length octets.now) }
{
    if !bit(4, octets[0]) {
        return Ok((None, at));
    }
    let (_, rest) = octets.split_at(at as usize);
    let (mapping, size) = read_record(alloc, rest, base + at)?;
    Ok((Some(mapping), at + size))
}

/// Appends the Map-Reply record of a Map-Request, if there is one. Without memory a part of it
/// stays.
pub(crate) fn write_piggyback(
    alloc: Global,
    mapping: &Option<Record>,
    out: &mut Octets,
) -> Result<(), NoMemory>
    requires { IfSome mapping.now InRange }
    ensures { let octets = flat_map canonical_record (option_to_list mapping.now) in
        OnOk result (out.new ≡ out.old ++ octets) }
{
    match mapping {
        Some(mapping) => write_record(alloc, mapping, out),
        None => Ok(()),
    }
}
