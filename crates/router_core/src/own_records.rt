// The site's records: its database prefixes, each with the own locators (RFC 9301, section 5.4).
ghost use Rattle.router_model.specs.Standing.{with_ups};
ghost use Rattle.std.specs.Prelude.{◌≡◌, ◌++◌, Some, None, map, option_to_list, IfOk, OnOk};
ghost use Rattle.std.specs.List.{list_any};
ghost use Rattle.mapping_records.specs.Eids.{same_address};
ghost use Rattle.router_model.specs.Hear.{own_locator, own_record};

use crate::site::{Site, is_first_up};
use ip_headers::{Addr, same_address};
use lisp_settings::{Database, Locator, OwnLocator};
use map_messages::Record;
use mapping_records::Locators;
use octets::NoMemory;
use std::alloc::{AllocFailed, Global};

/// The record of a database prefix; `probed` is the own locator that a probe came to.
pub(crate) fn own_record(
    alloc: Global,
    site: &Site<'_>,
    probed: Option<Addr>,
    database: &Database,
) -> Result<Record, NoMemory>
    ensures { IfOk result (λ mapping. mapping ≡ own_record site.now probed database.now) }
{
    let locators = own_locators(alloc, probed, site)?;
    Ok(Record {
        ttl: site.ttl(),
        action: 0,
        authoritative: true,
        version: database.version,
        eid: database.eid,
        locators: Locators::from_vec(locators),
    })
}

// The own locators of the site, as locators of a record.
fn own_locators(
    alloc: Global,
    probed: Option<Addr>,
    site: &Site<'_>,
) -> Result<Vec<Locator>, AllocFailed<Locator>>
    ensures { IfOk result (λ made. made.items ≡ map (own_locator probed) site.now.locators) }
{
    let (locators, ups) = site.locators();
    let mut made = Vec::new(alloc);
    add_locators(probed, locators, ups, &mut made)?;
    Ok(made)
}

// Adds own locators to those of a record. The lowest bit of `ups` marks whether the first one is
// up, and so on.
fn add_locators(
    probed: Option<Addr>,
    locators: &[OwnLocator],
    ups: u32,
    made: &mut Vec<Locator>,
) -> Result<(), AllocFailed<Locator>>
    ensures { OnOk result (made.new.items ≡ made.old.items
        ++ map (own_locator probed) (with_ups ups locators.now)) }
{
    let [own, others @ ..] = locators else {
        return Ok(());
    };
    made.push(own_locator(probed, own, is_first_up(ups)))?;
    add_locators(probed, others, ups / 2, made)
}

// An own locator as a locator of a record; p marks the one that a probe came to.
fn own_locator(probed: Option<Addr>, own: &OwnLocator, up: bool) -> Locator
    ensures { result ≡ own_locator probed (record own.now { up = up }) }
{
    Locator {
        addr: own.addr,
        priority: own.priority,
        weight: own.weight,
        m_priority: 255,
        m_weight: 0,
        local: true,
        probed: is_probed(probed, own.addr),
        reachable: up,
    }
}

fn is_probed(probed: Option<Addr>, addr: Addr) -> bool
    ensures { result
        ≡ list_any (λ probed. same_address probed addr) (option_to_list probed) }
{
    match probed {
        Some(probed) => same_address(&probed, &addr),
        None => false,
    }
}
