// Reading of EIDs.
ghost use Rattle.std.specs.Prelude.{◌≡◌, ◌≤◌, ◌<◌, ◌+◌, ◌^◌, length, IfOk, None, true};
ghost use Rattle.octets.specs.Refusals.{refusal_of};
ghost use Rattle.octets.specs.Rules.{first_failing};
ghost use Rattle.mapping_records.specs.Eid.{eid_at, eid_rules, is_lcaf, lcaf_rules};

use crate::places::{addr_at, addr_size, has_addr, refused};
use ip_headers::Addr;
use octets::{Refused, Why, big_16, big_32};

/// The AFI of an LCAF (RFC 8060).
const LCAF: u16 = 16387;

/// The instance, the address and the octets consumed of the EID that begins with its AFI. AFI 0 is
/// no EID: it has instance 0 and no address. Places count from `base`.
pub fn read_eid(octets: &[u8], base: u32) -> Result<(u32, Option<Addr>, u32), Refused>
    requires { base + length octets.now < 2 ^ 32 }
    ensures refused { refusal_of result ≡ first_failing (eid_rules base octets.now) }
    ensures value { IfOk result (λ read. read ≡ eid_at octets.now) }
    ensures instance { IfOk result (λ read. read.0 < 2 ^ 24) }
    ensures inside { IfOk result (λ read. read.2 ≤ length octets.now) }
{
    if octets.len() < 2 {
        return Err(refused(base, Why::Short));
    }
    let afi = big_16(octets, 0);
    if afi == LCAF {
        return read_lcaf(octets, base);
    }
    if afi == 0 {
        return Ok((0, None, 2));
    }
    if !has_addr(afi) {
        return Err(refused(base, Why::Afi));
    }
    let size = 2 + addr_size(afi);
    if octets.len() < size {
        return Err(refused(base + 2, Why::Short));
    }
    Ok((0, Some(addr_at(afi, octets, 2)), size as u32))
}

fn read_lcaf(octets: &[u8], base: u32) -> Result<(u32, Option<Addr>, u32), Refused>
    requires room { base + length octets.now < 2 ^ 32 }
    requires some { 2 ≤ length octets.now }
    requires lcaf { is_lcaf octets.now ≡ true }
    ensures refused { refusal_of result ≡ first_failing (eid_rules base octets.now) }
    ensures value { IfOk result (λ read. read ≡ eid_at octets.now) }
    ensures instance { IfOk result (λ read. read.0 < 2 ^ 24) }
    ensures inside { IfOk result (λ read. read.2 ≤ length octets.now) }
{
    if let Some(refused) = lcaf_refusal(octets, base) {
        return Err(refused);
    }
    let afi = big_16(octets, 12);
    let size = 14 + addr_size(afi);
    Ok((
        big_32(octets, 8),
        Some(addr_at(afi, octets, 14)),
        size as u32,
    ))
}

fn lcaf_refusal(octets: &[u8], base: u32) -> Option<Refused>
    requires room { base + length octets.now < 2 ^ 32 }
    requires some { 2 ≤ length octets.now }
    ensures { result ≡ first_failing (lcaf_rules base octets.now) }
{
    if octets.len() < 8 {
        return Some(refused(base + 2, Why::Short));
    }
    if octets[4] != 2 {
        return Some(refused(base + 4, Why::LcafType));
    }
    if octets.len() < 14 {
        return Some(refused(base + 8, Why::Short));
    }
    let afi = big_16(octets, 12);
    if !has_addr(afi) {
        return Some(refused(base + 12, Why::Afi));
    }
    let size = addr_size(afi);
    if usize::from(big_16(octets, 6)) != 6 + size {
        return Some(refused(base + 6, Why::LcafLength));
    }
    if big_32(octets, 8) >= 0x100_0000 {
        return Some(refused(base + 8, Why::InstanceTooLarge));
    }
    if octets.len() < 14 + size {
        return Some(refused(base + 14, Why::Short));
    }
    None
}
