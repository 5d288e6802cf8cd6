// Rounds by themselves: their lines have the looks by which packets were decided, and forwarders
// read the tables that rounds publish.
ghost use Rattle.std.specs.Prelude.{◌≡◌, ◌≤◌, ◌<◌, ◌^◌, [], length, IfOk, IfSome};
ghost use Rattle.lisp_settings.specs.Lawful.{IsLawful};
ghost use Rattle.router_model.specs.Journal.{statics};
ghost use Rattle.router_model.specs.Lifting.{AreOctets};
ghost use Rattle.router_model.specs.Parts.{Stands, parts_in};
ghost use Rattle.forwarders.specs.Batches.{journal_of};

use crate::forwarding::{Meeting, SITE};
use capture_io::{Frame, Link};
use forwarders::{
    Forwarded, Forwarder, Gate, Line, OpenGate, Published, Round, Tally, open_hall, run_round,
};
use lisp_settings::{Settings, read_settings};
use octets::{NoMemory, Octets};
use router_core::Table;
use router_log::Verdict;
use run_rows::exchanges::TENANT;
use run_rows::packets::{PACKET, REPLY};
use std::alloc::Global;
use std::sync::Wait;
use std::test::Fail;
use std::thread::Threads;

const MOMENT: u64 = 1_700_000_000_000_000_000;

// A frame of a packet, with that number, at a moment.
fn frame(alloc: Global, number: u32, moment: u64, packet: &[u8]) -> Result<Frame, NoMemory>
    requires number { 1 ≤ number }
    requires size { length packet.now < 2 ^ 32 }
    ensures moment { IfOk result (λ frame. frame.moment ≡ moment) }
    ensures octets { IfOk result (λ frame. AreOctets frame.octets) }
{
    Ok(Frame {
        number,
        moment,
        link: Link::Raw,
        octets: Octets::copied(alloc, packet)?,
    })
}

// The number of lines that have a look.
fn looks_in(lines: &[Line]) -> u32 {
    let mut looks = 0_u32;
    for line in lines {
        if line.look.is_some() {
            looks = looks.saturating_add(1);
        }
    }
    looks
}

// The number of lines that have a look in a first round of two frames, with two workers.
fn looks_of_round<R: Threads + Wait + Sync, G: Gate>(
    rt: &R,
    alloc: Global,
    settings: &Settings,
    table: &mut Table,
    first: Frame,
    second: Frame,
    gate: &G,
) -> Result<u32, NoMemory>
    requires lawful { IsLawful settings.now }
    requires parts { table.old.parts ≡ parts_in settings.now (statics settings.now) }
    requires stands { Stands settings.now table.old.parts (statics settings.now) }
    requires moments { (first.moment ≡ 1700000000000000000) × (second.moment ≡ 1700000000000000000) }
    requires octets { AreOctets first.octets × AreOctets second.octets }
{
    let frames = [first, second];
    let mut published = open_hall(rt, alloc, settings, table, 2)?;
    let round = Round {
        rt,
        gate,
        workers: 2,
        alloc,
        settings,
        previous: None,
        frames: &frames,
    };
    let done = run_round(&round, table, &mut published);
    published.close(rt);
    let done = done?;
    Ok(looks_in(done.lines.as_slice()))
}

fn looks_of_two<R: Threads + Wait + Sync, G: Gate>(
    rt: &R,
    alloc: Global,
    gate: &G,
) -> Result<u32, NoMemory> {
    let Ok(settings) = read_settings(alloc, SITE.as_bytes()) else {
        return Err(NoMemory);
    };
    let first = frame(alloc, 1, MOMENT, &PACKET)?;
    let second = frame(alloc, 2, MOMENT, &PACKET)?;
    let mut table = Table::new(alloc, &settings)?;
    looks_of_round(rt, alloc, &settings, &mut table, first, second, gate)
}

#[test]
fn each_line_of_a_round_holds_a_look(rt: HostRuntime) -> Result<(), Fail> {
    let gate = Meeting::new();
    assert_eq!(rt; looks_of_two(&rt, rt.alloc(), &gate)?, 2);
    gate.was_kept(&rt);
    Ok(())
}

// The moment of the Map-Reply.
const REPLIED: u64 = MOMENT + 100_000_000;

// A forwarder of the published table, or None where its place was refused.
fn forwarder_of(published: &mut Published) -> Option<Forwarder>
    ensures kept { published.new ≡ published.old }
    ensures settings { IfSome result (λ forwarder. forwarder.settings ≡ published.old.settings) }
{
    published.forwarder(&mut Tally::new())
}

// The number of entries by which a forwarder decides a packet, and whether the packet goes into a
// tunnel. None where the forwarder doesn't decide it.
fn carried(forwarder: &mut Forwarder, settings: &Settings, packet: &Frame) -> Option<(u64, bool)>
    requires lawful { IsLawful settings.now }
    requires settings { forwarder.old.settings ≡ settings.now }
    ensures { forwarder.new.settings ≡ settings.now }
{
    let decided = forwarder.forward(settings, REPLIED, packet, &mut Tally::new());
    let Ok(Forwarded { look, decision }) = decided else {
        return None;
    };
    let carries = matches!(decision.verdict, Verdict::Encapsulated { .. });
    Some((look.count(), carries))
}

// Plays a packet without a mapping, then the Map-Reply to its request, each in a round by itself.
// Returns the decisions of forwarders on the packet: of one made between the rounds, before the
// second and after it; then of one made behind both, twice.
fn looks_beside_a_reply<R: Threads + Wait + Sync>(
    rt: &R,
    alloc: Global,
    settings: &Settings,
    table: &mut Table,
    published: &mut Published,
    packet: Frame,
    reply: Frame,
) -> Result<[Option<(u64, bool)>; 4], NoMemory>
    requires lawful { IsLawful settings.now }
    requires settings { published.old.settings ≡ settings.now }
    requires parts { table.old.parts ≡ parts_in settings.now (statics settings.now) }
    requires stands { Stands settings.now table.old.parts (journal_of published.old.batches) }
    requires none { published.old.pending ≡ [] }
    requires plan { published.old.plan ≡ published.old.batches }
    requires moments { (packet.moment ≡ 1700000000000000000) × (reply.moment ≡ 1700000000100000000) }
    requires octets { AreOctets packet.octets × AreOctets reply.octets }
{
    let (packets, replies) = ([packet], [reply]);
    let packet = &packets[0];
    let first = Round {
        rt,
        gate: &OpenGate,
        workers: 0,
        alloc,
        settings,
        previous: None,
        frames: &packets,
    };
    run_round(&first, table, published)?;
    let Some(mut early) = forwarder_of(published) else {
        return Ok([None; 4]);
    };
    let before = carried(&mut early, settings, packet);
    let second = Round {
        rt,
        gate: &OpenGate,
        workers: 0,
        alloc,
        settings,
        previous: Some(MOMENT),
        frames: &replies,
    };
    run_round(&second, table, published)?;
    let Some(mut late) = forwarder_of(published) else {
        return Ok([None; 4]);
    };
    Ok([
        before,
        carried(&mut early, settings, packet),
        carried(&mut late, settings, packet),
        carried(&mut late, settings, packet),
    ])
}

// The decisions of `looks_beside_a_reply` on a table that has just begun.
fn looks_of_rounds<R: Threads + Wait + Sync>(
    rt: &R,
    alloc: Global,
    settings: &Settings,
    table: &mut Table,
) -> Result<[Option<(u64, bool)>; 4], NoMemory>
    requires lawful { IsLawful settings.now }
    requires parts { table.old.parts ≡ parts_in settings.now (statics settings.now) }
    requires stands { Stands settings.now table.old.parts (statics settings.now) }
{
    let packet = frame(alloc, 1, MOMENT, &PACKET)?;
    let reply = frame(alloc, 2, REPLIED, &REPLY)?;
    let mut published = open_hall(rt, alloc, settings, table, 2)?;
    let looks = looks_beside_a_reply(rt, alloc, settings, table, &mut published, packet, reply);
    published.close(rt);
    looks
}

// The decisions of `looks_of_rounds` on a new table, which `closed` drops.
fn looks_of_table<R: Threads + Wait + Sync>(
    rt: &R,
    alloc: Global,
    settings: &Settings,
) -> Result<[Option<(u64, bool)>; 4], NoMemory>
    requires lawful { IsLawful settings.now }
{
    let mut table = Table::new(alloc, settings)?;
    let looks = looks_of_rounds(rt, alloc, settings, &mut table);
    let _ = table.closed();
    looks
}

fn looks_of_site<R: Threads + Wait + Sync>(
    rt: &R,
    alloc: Global,
    text: &str,
) -> Result<[Option<(u64, bool)>; 4], NoMemory> {
    match read_settings(alloc, text.as_bytes()) {
        Ok(settings) => looks_of_table(rt, alloc, &settings),
        Err(_) => Err(NoMemory),
    }
}

#[test]
fn a_forwarder_sees_what_a_round_published(rt: HostRuntime) -> Result<(), Fail> {
    let [first, second, third, fourth] = looks_of_site(&rt, rt.alloc(), TENANT)?;
    assert_eq!(rt; first, Some((1, false)));
    assert_eq!(rt; second, Some((3, true)));
    assert_eq!(rt; third, Some((3, true)));
    assert_eq!(rt; fourth, Some((3, true)));
    Ok(())
}
