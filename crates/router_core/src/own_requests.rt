// The Map-Requests that this router sends.
ghost use Rattle.router_model.specs.Standing.{with_ups};
ghost use Rattle.std.specs.Prelude.{◌≡◌, ◌++◌, map, true, false, Some, None, IfOk, OnOk};
ghost use Rattle.map_messages.specs.declared.message.Message.TheVariants.{Control, Request};
ghost use Rattle.router_model.specs.Emits.{database_address, ecm_for, inner_source, no_address, request_for, source_eid};
ghost use Rattle.router_model.specs.Site.{up_locators};

use crate::site::{Site, is_first_up};
use ip_headers::Addr;
use lisp_settings::{Database, OwnLocator};
use map_messages::{Addrs, Ecm, Eid, Eids, LISP_CONTROL_PORT, MapRequest, Message};
use octets::NoMemory;
use std::alloc::{AllocFailed, Global};

/// A Map-Request for an EID, encapsulated in a packet to the EID's address.
pub(crate) fn request_message(
    alloc: Global,
    site: &Site<'_>,
    eid: Eid,
    source: Option<Addr>,
    invoked: bool,
    nonce: u64,
) -> Result<Message, NoMemory>
    ensures { let source = source_eid eid source in
        let request = request_for site.now false false invoked nonce source eid in
        IfOk result (λ message. message ≡ Control (ecm_for site.now eid request)) }
{
    let mut request = request_for(alloc, site, nonce, source_eid(eid, source), eid)?;
    request.invoked = invoked;
    Ok(Message::Control(ecm_for(site, eid, request)))
}

/// A Map-Request with P, for the locator that it probes.
pub(crate) fn probe_message(
    alloc: Global,
    site: &Site<'_>,
    eid: Eid,
    nonce: u64,
) -> Result<Message, NoMemory>
    ensures { let request = request_for site.now true false false nonce None eid in
        IfOk result (λ message. message ≡ Request request) }
{
    let mut request = request_for(alloc, site, nonce, None, eid)?;
    request.probe = true;
    Ok(Message::Request(request))
}

/// An SMR: a Map-Request with S, whose Source EID is of the site.
pub(crate) fn solicit_message(
    alloc: Global,
    site: &Site<'_>,
    eid: Eid,
    nonce: u64,
) -> Result<Message, NoMemory>
    ensures { let source = source_eid eid (Some eid.prefix.addr) in
        IfOk result (λ message. message
        ≡ Request (request_for site.now false true false nonce source eid)) }
{
    let source = source_eid(eid, Some(eid.prefix.addr));
    let mut request = request_for(alloc, site, nonce, source, eid)?;
    request.smr = true;
    Ok(Message::Request(request))
}

// A Map-Request for one EID, without flags, whose reply addresses are those of the own locators
// that are up.
fn request_for(
    alloc: Global,
    site: &Site<'_>,
    nonce: u64,
    source: Option<(u32, Addr)>,
    eid: Eid,
) -> Result<MapRequest, NoMemory>
    ensures { IfOk result (λ request. request
        ≡ request_for site.now false false false nonce source eid) }
{
    let replies_to = Addrs::from_vec(own_addrs(alloc, site)?);
    let mut eids = Eids::new(alloc);
    eids.push(eid)?;
    Ok(MapRequest {
        probe: false,
        smr: false,
        invoked: false,
        nonce,
        source,
        replies_to,
        eids,
        piggyback: None,
    })
}

// The addresses of the own locators that are up.
fn own_addrs(alloc: Global, site: &Site<'_>) -> Result<Vec<Addr>, AllocFailed<Addr>>
    ensures { let addrs = map (λ own. own.addr) (up_locators site.now.locators) in
        IfOk result (λ up. up.items ≡ addrs) }
{
    let (locators, ups) = site.locators();
    let mut addrs = Vec::new(alloc);
    add_up(locators, ups, &mut addrs)?;
    Ok(addrs)
}

// Adds the addresses of own locators that are up. The lowest bit of `ups` marks whether the first
// one is up, and so on.
fn add_up(locators: &[OwnLocator], ups: u32, addrs: &mut Vec<Addr>) -> Result<(), AllocFailed<Addr>>
    ensures { OnOk result (addrs.new.items ≡ addrs.old.items
        ++ map (λ own. own.addr) (up_locators (with_ups ups locators.now))) }
{
    let [own, others @ ..] = locators else {
        return Ok(());
    };
    if !is_first_up(ups) {
        return add_up(others, ups / 2, addrs);
    }
    addrs.push(own.addr)?;
    add_up(others, ups / 2, addrs)
}

// The Source EID of a Map-Request: an address in the instance of the EID, where there is one.
fn source_eid(eid: Eid, source: Option<Addr>) -> Option<(u32, Addr)>
    ensures { result ≡ source_eid eid source }
{
    match source {
        Some(addr) => Some((eid.iid, addr)),
        None => None,
    }
}

// A Map-Request encapsulated in a packet to the address of its EID.
fn ecm_for(site: &Site<'_>, eid: Eid, request: MapRequest) -> Ecm
    ensures { result ≡ ecm_for site.now eid request }
{
    Ecm {
        source: inner_source(site, eid),
        dest: eid.prefix.addr,
        source_port: LISP_CONTROL_PORT,
        request: Some(request),
        reply: None,
    }
}

// The source of the inner packet of a Map-Request: the own locator of the EID's family, else an
// address of the site, else address 0.
fn inner_source(site: &Site<'_>, eid: Eid) -> Addr
    ensures { result ≡ inner_source site.now eid }
{
    let addr = eid.prefix.addr;
    if let Some(own) = site.ours(addr) {
        return own;
    }
    site_address(site, eid).unwrap_or(no_address(addr))
}

// The address of the first prefix of the site in the instance and family of an EID, or None.
// Versions don't matter here.
fn site_address(site: &Site<'_>, eid: Eid) -> Option<Addr>
    ensures { result ≡ database_address site.now.databases eid }
{
    let (databases, _) = site.databases();
    database_address(databases, eid)
}

// The address of the first of these prefixes in the instance and family of an EID, or None.
fn database_address(databases: &[Database], eid: Eid) -> Option<Addr>
    ensures { result ≡ database_address databases.now eid }
{
    for database in databases {
        let addr = database.eid.prefix.addr;
        if database.eid.iid == eid.iid && addr.width() == eid.prefix.addr.width() {
            return Some(addr);
        }
    }
    None
}

fn no_address(addr: Addr) -> Addr
    ensures { result ≡ no_address addr }
{
    match addr {
        Addr::V4(_) => Addr::V4(0),
        Addr::V6(_) => Addr::V6(0),
    }
}
