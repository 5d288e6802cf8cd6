// Notices of a delivered packet: status bits, echoes, versions (RFC 9300, section 10; RFC 9302).
ghost use Rattle.std.specs.Prelude.{◌≡◌, ◌++◌, IfOk, OnOk, option_and_then, option_map, option_to_list};
ghost use Rattle.std.specs.Option.{option_copied};
ghost use Rattle.lisp_header.specs.Header.{InRange};
ghost use Rattle.router_model.specs.Cache.{held_of};
ghost use Rattle.router_model.specs.Decide.{bits_notice, bits_width, delivery_notices, given, nonce_notices, refresh_notice, solicit_notice};
ghost use Rattle.router_model.specs.Lifting.{AreSound};

use crate::versions::{dest_version, is_newer, is_version, source_version};
use ip_headers::Addr;
use lisp_header::{LispHeader, newer};
use lisp_settings::Database;
use map_cache::Mapping;
use octets::NoMemory;
use router_log::{Notice, Notices};
use std::alloc::Global;

/// The notices of a delivered packet from a locator, by the prefix of the site that the packet is
/// for (`home`) and the mapping in force for its source.
pub(crate) fn notices(
    alloc: Global,
    rloc: Addr,
    header: &LispHeader,
    home: &Database,
    mapping: Option<&Mapping>,
) -> Result<Notices, NoMemory>
    requires { InRange header.now }
    ensures notices { IfOk result (λ notices. notices ≡ delivery_notices rloc header.now home.now
        (option_map held_of (option_copied mapping.entry))) }
    ensures sound { IfOk result AreSound }
{
    let mut notices = Notices::new(alloc);
    push_bits(rloc, header, mapping, &mut notices)?;
    push_nonce(rloc, header.echo, header.nonce, &mut notices)?;
    push_solicit(rloc, header, home, &mut notices)?;
    push_refresh(header, mapping, &mut notices)?;
    Ok(notices)
}

// Adds the notice of a packet's status bits, if it has them and its source has a mapping in force.
fn push_bits(
    rloc: Addr,
    header: &LispHeader,
    mapping: Option<&Mapping>,
    notices: &mut Notices,
) -> Result<(), NoMemory>
    ensures { OnOk result (notices.new ≡ notices.old ++ option_to_list
        (option_and_then (λ bits. bits_notice rloc header.now bits
        (option_map held_of (option_copied mapping.entry))) header.now.status)) }
{
    match bits_notice(rloc, header, mapping) {
        None => Ok(()),
        Some(notice) => notices.push(notice),
    }
}

fn bits_notice(rloc: Addr, header: &LispHeader, mapping: Option<&Mapping>) -> Option<Notice>
    ensures { result ≡ option_and_then (λ bits. bits_notice rloc header.now bits
        (option_map held_of (option_copied mapping.entry))) header.now.status }
{
    let bits = header.status?;
    let mapping = mapping?;
    Some(Notice::Bits {
        eid: mapping.eid,
        rloc,
        bits,
        width: bits_width(header),
    })
}

// The number of status bits in a header: beside an instance 8, else 32.
fn bits_width(header: &LispHeader) -> u8
    ensures { result ≡ bits_width header.now }
{
    if header.instance.is_some() { 8 } else { 32 }
}

// Adds the notices of a packet's nonce: the locator wants it echoed, or it is an echo. All packets
// count as data but those that want an echo.
fn push_nonce(
    rloc: Addr,
    asks: bool,
    nonce: Option<u32>,
    notices: &mut Notices,
) -> Result<(), NoMemory>
    ensures { OnOk result (notices.new ≡ notices.old ++ nonce_notices rloc asks nonce) }
{
    match nonce {
        None => notices.push(Notice::DataFrom { rloc }),
        Some(nonce) => {
            if asks {
                return notices.push(Notice::EchoWanted { rloc, nonce });
            }
            notices.push(Notice::EchoHeard { rloc, nonce })?;
            notices.push(Notice::DataFrom { rloc })
        }
    }
}

// Adds a notice, where a test holds.
fn push_given(test: bool, notice: Notice, notices: &mut Notices) -> Result<(), NoMemory>
    ensures { OnOk result (notices.new ≡ notices.old ++ given test notice) }
{
    if test {
        return notices.push(notice);
    }
    Ok(())
}

// Adds the notice to send an SMR, where the packet names an old version of the site's mapping.
fn push_solicit(
    rloc: Addr,
    header: &LispHeader,
    home: &Database,
    notices: &mut Notices,
) -> Result<(), NoMemory>
    ensures { OnOk result (notices.new ≡ notices.old ++ solicit_notice rloc header.now home.now) }
{
    let dest = dest_version(header);
    let is_old = is_version(dest) && newer(home.version, dest);
    push_given(
        is_old,
        Notice::Solicit {
            rloc,
            eid: home.eid,
        },
        notices,
    )
}

// Adds the notice to request a learned mapping anew, where the packet names a newer version of it.
fn push_refresh(
    header: &LispHeader,
    mapping: Option<&Mapping>,
    notices: &mut Notices,
) -> Result<(), NoMemory>
    ensures { OnOk result (notices.new ≡ notices.old ++ refresh_notice header.now
        (option_map held_of (option_copied mapping.entry))) }
{
    let source = source_version(header);
    match mapping {
        None => Ok(()),
        Some(mapping) => {
            let is_old = !mapping.fixed && is_newer(source, mapping.details.version);
            push_given(is_old, Notice::Refresh { eid: mapping.eid }, notices)
        }
    }
}
