// Reading of Map-Requests.
ghost use Rattle.std.specs.Prelude.{◌≡◌, ◌≤◌, ◌<◌, ◌+◌, ◌^◌, length, drop, IfOk, IfSome};
ghost use Rattle.octets.specs.Refusals.{refusal_of};
ghost use Rattle.octets.specs.Rules.{first_failing};
ghost use Rattle.mapping_records.specs.Record.{RefusesBy};
ghost use Rattle.map_messages.specs.Range.{InRangeRequest};
ghost use Rattle.map_messages.specs.Request.{addrs_place, addrs_rules, eids_place, eids_rules, record_place, request_rules, request_size, source_at, source_rules, AreAskedEids, AreReplyAddrs, IsRequestAt};
ghost use Rattle.map_messages.specs.Words.{kind};

use crate::items::read_items;
use crate::places::{bit, nonce_at};
use crate::records::read_piggyback;
use crate::{Addr, Addrs, Eids, MapRequest, MessageFault};
use mapping_records::read_eid;
use octets::Refused;
use std::alloc::Global;

/// The Map-Request at the front of octets that hold its nonce, and the octets consumed.
pub(crate) fn read_request(
    alloc: Global,
    octets: &[u8],
    base: u32,
) -> Result<(MapRequest, u32), MessageFault>
    requires room { base + length octets.now < 2 ^ 32 }
    requires head { 12 ≤ length octets.now }
    requires kind { kind octets.now ≡ 1 }
    ensures refused { RefusesBy (first_failing (request_rules base octets.now)) result }
    ensures value { IfOk result (λ read. IsRequestAt octets.now read.0) }
    ensures range { IfOk result (λ read. InRangeRequest read.0) }
    ensures size { IfOk result (λ read. read.1 ≡ request_size octets.now) }
    ensures inside { IfOk result (λ read. read.1 ≤ length octets.now) }
{
    let (source, addrs_at) = read_source(octets, base)?;
    let (replies_to, eids_at) = read_replies_to(alloc, octets, addrs_at, base)?;
    let (eids, record_at) = read_eids(alloc, octets, eids_at, base)?;
    let (piggyback, end) = read_piggyback(alloc, octets, record_at, base)?;
    let request = MapRequest {
        probe: bit(2, octets[0]),
        smr: bit(1, octets[0]),
        invoked: bit(64, octets[1]),
        nonce: nonce_at(octets),
        source,
        replies_to,
        eids,
        piggyback,
    };
    Ok((request, end))
}

// The Source EID, and the place where it ends.
#[tactic(auto, unfolding(crate::specs::Request::addrs_place))]
fn read_source(octets: &[u8], base: u32) -> Result<(Option<(u32, Addr)>, u32), Refused>
    requires room { base + length octets.now < 2 ^ 32 }
    requires head { 12 ≤ length octets.now }
    ensures refused { refusal_of result ≡ first_failing (source_rules base octets.now) }
    ensures value { IfOk result (λ read. read.0 ≡ source_at (drop 12 octets.now)) }
    ensures instance { IfOk result (λ read. IfSome read.0 (λ source. source.0 < 2 ^ 24)) }
    ensures end { IfOk result (λ read. read.1 ≡ addrs_place octets.now) }
    ensures inside { IfOk result (λ read. read.1 ≤ length octets.now) }
{
    let (_, rest) = octets.split_at(12);
    let (iid, host, size) = read_eid(rest, base + 12)?;
    match host {
        Some(addr) => Ok((Some((iid, addr)), 12 + size)),
        None => Ok((None, 12 + size)),
    }
}

// The ITR-RLOCs at their place, and the place where they end.
#[tactic(auto, unfolding(crate::specs::Request::eids_place))]
fn read_replies_to(
    alloc: Global,
    octets: &[u8],
    at: u32,
    base: u32,
) -> Result<(Addrs, u32), MessageFault>
    requires room { base + length octets.now < 2 ^ 32 }
    requires head { 12 ≤ length octets.now }
    requires place { at ≡ addrs_place octets.now }
    requires inside { at ≤ length octets.now }
    ensures refused { RefusesBy (first_failing (addrs_rules base octets.now)) result }
    ensures value { IfOk result (λ read. AreReplyAddrs octets.now read.0) }
    ensures end { IfOk result (λ read. read.1 ≡ eids_place octets.now) }
    ensures inside { IfOk result (λ read. read.1 ≤ length octets.now) }
{
    read_items(alloc, octets[2] % 32 + 1, octets, at, base)
}

// The EID records at their place, and the place where they end.
#[tactic(auto, unfolding(crate::specs::Request::record_place))]
fn read_eids(alloc: Global, octets: &[u8], at: u32, base: u32) -> Result<(Eids, u32), MessageFault>
    requires room { base + length octets.now < 2 ^ 32 }
    requires head { 12 ≤ length octets.now }
    requires place { at ≡ eids_place octets.now }
    requires inside { at ≤ length octets.now }
    ensures refused { RefusesBy (first_failing (eids_rules base octets.now)) result }
    ensures value { IfOk result (λ read. AreAskedEids octets.now read.0) }
    ensures end { IfOk result (λ read. read.1 ≡ record_place octets.now) }
    ensures inside { IfOk result (λ read. read.1 ≤ length octets.now) }
{
    read_items(alloc, octets[3], octets, at, base)
}
