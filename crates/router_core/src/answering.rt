// Answers to Map-Requests for mappings of the site (RFC 9301, sections 5.3 to 5.5).
ghost use Rattle.std.specs.Prelude.{◌≡◌, ◌≤◌, ◌++◌, Some, None, filter, filter_map, length, map, option_map, All, IfOk, IfSome, OnOk, if◌then◌else◌};
ghost use Rattle.ip_headers.specs.Addr.{width};
ghost use Rattle.map_messages.specs.Range.{InRangeReply};
ghost use Rattle.map_messages.specs.Reply.{canonical_reply};
ghost use Rattle.map_messages.specs.Limits.{most_message_octets};
ghost use Rattle.mapping_records.specs.Eids.{longer};
ghost use Rattle.lisp_settings.specs.declared.settings.Settings.{Settings as SettingsValue};
ghost use Rattle.router_model.specs.Changes.{unchanged};
ghost use Rattle.router_model.specs.Hear.{answered, answering, first_path, own_record, path_back, replied, reply_of, reply_path};
ghost use Rattle.router_model.specs.Limits.{most_version};
ghost use Rattle.router_model.specs.Site.{database_of};
ghost use Rattle.router_core.specs.Site.{IsSite};
ghost use Rattle.lisp_settings.specs.Lawful.{IsLawfulDatabase};
ghost use Rattle.router_core.specs.Answering.{is_hit, standing_record};
ghost use Rattle.router_core.specs.Seen.{asker_seen, path_seen};
ghost use Rattle.router_core.specs.Sendable.{IsSendableReply};
ghost use Rattle.router_core.specs.Steps.{AreSent};
ghost use Rattle.router_core.specs.Table.{heard_seen};

use crate::own_records::own_record;
use crate::site::Site;
use crate::stepping::stood;
use crate::{Heard, Table};
use ip_headers::Addr;
use lisp_settings::Database;
use map_messages::{MapReply, MapRequest, Record, Records};
use mapping_records::Eid;
use octets::{Items, NoMemory};
use router_log::{Done, Emit, Reason, Verdict};
use std::alloc::{AllocFailed, Global};

/// The asker of a Map-Request: the own locator that the request came to, the port that it came
/// from, and whether it is a probe.
#[derive(Clone, Copy)]
pub(crate) struct Asker {
    pub dest: Addr,
    pub port: u16,
    pub probe: bool,
}

// The path of a Map-Reply: the addresses between which it goes.
#[derive(Clone, Copy)]
pub(crate) struct Path {
    pub from: Addr,
    pub to: Addr,
}

// The facts by which each record of a reply is made: the site, the number of steps that its
// versions are on, and the own locator that a probe came to.
#[derive(Clone, Copy)]
struct Told<'a> {
    site: &'a Site<'a>,
    steps: u32,
    probed: Option<Addr>,
}

impl Table {
    /// Answers a Map-Request for mappings of the site. The table stays as it is.
    pub(crate) fn answer_request(
        &self,
        site: &Site<'_>,
        asker: Asker,
        request: &MapRequest,
    ) -> Result<Heard, NoMemory>
        requires lawful { IsSite site.now }
        ensures parts { IfOk result (λ heard. heard_seen self.now.parts heard
            ≡ answered site.now (asker_seen asker) request.now
            (unchanged self.now.parts)) }
        ensures sent { IfOk result (λ heard. AreSent site.now 1 heard.emits) }
    {
        let reply = reply_of(self.alloc, site, asker, request)?;
        if reply.mappings.len() == 0 {
            return Ok(self.dropped(Reason::NotOurs));
        }
        let Some(path) = reply_path(site, asker, request) else {
            return Ok(self.dropped(Reason::NoReplyPath));
        };
        self.reply(asker, path, reply)
    }

    // A Map-Request that is answered: the emit of its reply along that path, and a verdict with the
    // number of the reply's records.
    fn reply(&self, asker: Asker, path: Path, reply: MapReply) -> Result<Heard, NoMemory>
        requires { IsSendableReply path.from path.to reply }
        ensures parts { IfOk result (λ heard. heard_seen self.now.parts heard
            ≡ replied (asker_seen asker) reply (Some (path_seen path))
            (unchanged self.now.parts)) }
        ensures sent { IfOk result (λ heard. (settings : SettingsValue)
            → AreSent settings 1 heard.emits) }
    {
        let count = reply.mappings.len() as u32;
        let mut emits = Items::new(self.alloc);
        emits.push(Emit::Reply {
            from: path.from,
            to: path.to,
            port: asker.port,
            reply,
        })?;
        Ok(Heard {
            verdict: Verdict::Control(Done::Answered(count)),
            entries: Items::new(self.alloc),
            emits,
        })
    }
}

// The reply to a Map-Request, with the records of the database prefixes that answer it.
fn reply_of(
    alloc: Global,
    site: &Site<'_>,
    asker: Asker,
    request: &MapRequest,
) -> Result<MapReply, NoMemory>
    requires lawful { IsSite site.now }
    ensures reply { IfOk result (λ reply. reply
        ≡ reply_of site.now (asker_seen asker) request.now
        (answering site.now.databases request.now.eids)) }
    ensures range { IfOk result (λ reply. InRangeReply reply) }
    ensures short { IfOk result (λ reply.
        length (canonical_reply reply) ≤ most_message_octets) }
{
    let (databases, steps) = site.databases();
    let mut hits = Vec::new(alloc);
    add_hits(databases, request.eids.as_slice(), &mut hits)?;
    let mut mappings = Records::new(alloc);
    let told = Told {
        site,
        steps,
        probed: probed(asker),
    };
    add_records(alloc, &told, &hits, databases, &mut mappings)?;
    Ok(MapReply {
        probe: asker.probe,
        nonce: request.nonce,
        mappings,
    })
}

// The own locator that a probe came to, or None where the request is no probe.
fn probed(asker: Asker) -> Option<Addr>
    ensures { result ≡ (if asker.probe then Some asker.dest else None) }
{
    if asker.probe { Some(asker.dest) } else { None }
}

// Adds for each EID the EID of the longest database prefix that covers it, if there is one.
fn add_hits(
    databases: &[Database],
    eids: &[Eid],
    hits: &mut Vec<Eid>,
) -> Result<(), AllocFailed<Eid>>
    ensures { OnOk result (hits.new.items ≡ hits.old.items
        ++ map (λ database. database.eid) (filter_map (database_of databases.now) eids.now)) }
{
    let [eid, others @ ..] = eids else {
        return Ok(());
    };
    let Some(database) = database_of(databases, eid) else {
        return add_hits(databases, others, hits);
    };
    hits.push(database.eid)?;
    add_hits(databases, others, hits)
}

// The longest database prefix that covers an EID, or None.
fn database_of<'a>(databases: &'a [Database], eid: &Eid) -> Option<&'a Database>
    ensures { option_map (λ database. database.now) result ≡ database_of databases.now eid.now }
{
    let mut best = None;
    for database in databases {
        if database.eid.covers(eid) {
            best = longer(best, database);
        }
    }
    best
}

fn longer<'a>(best: Option<&'a Database>, next: &'a Database) -> Option<&'a Database>
    ensures { option_map (λ database. database.now) result
        ≡ longer (λ database. database.eid) (option_map (λ database. database.now) best.entry)
        next.now }
{
    match best {
        Some(best) if next.eid.prefix.len <= best.eid.prefix.len => Some(best),
        _ => Some(next),
    }
}

// Adds the records of the database prefixes that lie within a hit.
fn add_records(
    alloc: Global,
    told: &Told<'_>,
    hits: &[Eid],
    databases: &[Database],
    records: &mut Records,
) -> Result<(), NoMemory>
    requires { All IsLawfulDatabase databases.now }
    ensures { OnOk result (records.new ≡ records.old ++ map (standing_record told.now.site.now
        told.now.steps told.now.probed) (filter (is_hit hits.now) databases.now)) }
{
    let [database, others @ ..] = databases else {
        return Ok(());
    };
    if !is_hit(hits, database) {
        return add_records(alloc, told, hits, others, records);
    }
    records.push(standing_record(alloc, told, database)?)?;
    add_records(alloc, told, hits, others, records)
}

// The record of a database prefix, with its version as it stands.
#[tactic(auto, unfolding(crate::specs::Answering::standing_record))]
fn standing_record(alloc: Global, told: &Told<'_>, database: &Database) -> Result<Record, NoMemory>
    requires { database.now.version ≤ most_version }
    ensures { IfOk result (λ mapping. mapping ≡ standing_record told.now.site.now told.now.steps
        told.now.probed database.now) }
{
    own_record(alloc, told.site, told.probed, &stood(database, told.steps))
}

// Whether a database prefix lies within a hit.
fn is_hit(hits: &[Eid], database: &Database) -> bool
    ensures { result ≡ is_hit hits.now database.now }
{
    let [hit, others @ ..] = hits else {
        return false;
    };
    hit.covers(&database.eid) || is_hit(others, database)
}

// The path of the reply to a Map-Request, or None. A probe is answered from the address that it
// came to.
fn reply_path(site: &Site<'_>, asker: Asker, request: &MapRequest) -> Option<Path>
    ensures path { option_map path_seen result
        ≡ reply_path site.now (asker_seen asker) request.now }
    ensures family { IfSome result (λ path. width path.from ≡ width path.to) }
{
    let replies_to = request.replies_to.as_slice();
    if asker.probe {
        return path_back(asker.dest, replies_to);
    }
    first_path(site, replies_to)
}

// The path to the first address of whose family an own locator is up, or None.
fn first_path(site: &Site<'_>, addrs: &[Addr]) -> Option<Path>
    ensures path { option_map path_seen result ≡ first_path site.now.locators addrs.now }
    ensures family { IfSome result (λ path. width path.from ≡ width path.to) }
{
    let [to, others @ ..] = addrs else {
        return None;
    };
    match site.ours(*to) {
        Some(from) => Some(Path { from, to: *to }),
        None => first_path(site, others),
    }
}

// The path from an address to the first one of its family, or None.
fn path_back(from: Addr, addrs: &[Addr]) -> Option<Path>
    ensures path { option_map path_seen result ≡ path_back from addrs.now }
    ensures family { IfSome result (λ path. width path.from ≡ width path.to) }
{
    let [to, others @ ..] = addrs else {
        return None;
    };
    if to.width() == from.width() {
        return Some(Path { from, to: *to });
    }
    path_back(from, others)
}
