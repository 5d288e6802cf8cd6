// The report and output of runs in which a call of the desk fails, and the status where memory is
// refused.
use desk::{Calls, MemoryDesk};
use octets::{NoMemory, Octets};
use replay::Status;
use run_rows::exchanges::{
    ASKED, Arrival, CARRIED, Departure, LEARNED, MISS, TENANT, USED, capture_of, output_of,
    report_of,
};
use run_rows::packets::{CONTROL, PACKET, RAW, REPLY, SENT};
use run_rows::runs::{REPLAY, desk_with, run_words};
use std::alloc::Global;
use std::process::Abort;
use std::sync::Wait;
use std::test::Fail;
use std::thread::Threads;

/// The words of a replay with two workers and rounds of two frames.
const SHARED: [&str; 11] = [
    "replay",
    "--settings",
    "settings",
    "--in",
    "in",
    "--out",
    "out",
    "--workers",
    "2",
    "--round",
    "2",
];

/// The whole report and the whole output of a run.
#[derive(Drop)]
struct Whole {
    report: String,
    output: Octets,
}

fn whole_of(
    alloc: Global,
    frames: &[Arrival<'_>],
    end: &str,
    packets: &[Departure<'_>],
) -> Result<Whole, NoMemory> {
    Ok(Whole {
        report: report_of(alloc, frames, end)?,
        output: output_of(alloc, packets)?,
    })
}

// The status of a run of the words in which that call fails, and its desk.
fn failing_at<R: Threads + Wait + Sync>(
    rt: &R,
    alloc: Global,
    words: &[&str],
    capture: &[u8],
    call: u64,
) -> Result<(Status, MemoryDesk), NoMemory> {
    let mut fails = Calls::new(alloc);
    fails.push(call)?;
    let mut desk = desk_with(alloc, TENANT, Octets::copied(alloc, capture)?, fails)?;
    let status = run_words(rt, alloc, words, &mut desk)?;
    Ok((status, desk))
}

// Whether the report is a beginning of the whole one, and the output, if it was made, a beginning
// of the whole one.
fn is_within(desk: &MemoryDesk, whole: &Whole) -> bool {
    whole.report.as_str().as_bytes().starts_with(desk.said())
        && whole
            .output
            .as_slice()
            .starts_with(desk.file("out").unwrap_or(&[]))
}

fn is_whole(desk: &MemoryDesk, whole: &Whole) -> bool {
    desk.said() == whole.report.as_str().as_bytes()
        && desk.file("out") == Some(whole.output.as_slice())
}

// Runs the words with that call failing, and returns the status. Report and output are a beginning
// of those of one of these ways, or all of them where the run doesn't come to that call.
fn ends_within<R: Abort + Threads + Wait + Sync>(
    rt: &R,
    alloc: Global,
    words: &[&str],
    capture: &[u8],
    ways: &[Whole],
    call: u64,
) -> Result<Status, NoMemory> {
    let (status, desk) = failing_at(rt, alloc, words, capture, call)?;
    if status == Status::Done {
        assert!(rt; ways.iter().any(|whole| is_whole(&desk, whole)));
    } else {
        assert_eq!(rt; status, Status::Host);
        assert!(rt; ways.iter().any(|whole| is_within(&desk, whole)));
    }
    Ok(status)
}

// The first of the calls 1 to 99 that a run of the words doesn't come to, or 0 where it comes to
// all.
fn first_done<R: Abort + Threads + Wait + Sync>(
    rt: &R,
    alloc: Global,
    words: &[&str],
    capture: &[u8],
    ways: &[Whole],
) -> Result<u64, NoMemory> {
    for call in 1..100_u64 {
        if ends_within(rt, alloc, words, capture, ways, call)? == Status::Done {
            return Ok(call);
        }
    }
    Ok(0)
}

fn exchange_fails<R: Abort + Threads + Wait + Sync>(
    rt: &R,
    alloc: Global,
) -> Result<u64, NoMemory> {
    let frames = [MISS, LEARNED, USED];
    let capture = capture_of(alloc, &RAW, &frames)?;
    let end = "end frames=3 written=2 entries=3";
    let whole = whole_of(alloc, &frames, end, &[ASKED, CARRIED])?;
    first_done(rt, alloc, &REPLAY, capture.as_slice(), &[whole])
}

#[test]
fn where_a_call_fails_what_was_said_and_sent_is_a_beginning(rt: HostRuntime) -> Result<(), Fail> {
    assert!(rt; exchange_fails(&rt, rt.alloc())? > 8);
    Ok(())
}

// The first round has two misses. In the next one a packet comes behind the Map-Reply, and is
// decided before or after it.
const SECOND_MISS: Arrival<'static> = (
    0,
    100_000,
    &PACKET,
    "2 1700000000.100000000 n=0 drop 13 miss",
);

const REPLIED: Arrival<'static> = (
    0,
    200_000,
    &REPLY,
    "3 1700000000.200000000 n=1 control reply learned=1 passed=0",
);

const BEFORE: Arrival<'static> = (
    0,
    300_000,
    &PACKET,
    "4 1700000000.300000000 n=1 drop 13 miss",
);

const AFTER: Arrival<'static> = (
    0,
    300_000,
    &PACKET,
    "4 1700000000.300000000 n=3 encapsulated 192.0.2.1 198.51.100.7 64519",
);

const LAST: Arrival<'static> = (
    0,
    400_000,
    &PACKET,
    "5 1700000000.400000000 n=3 encapsulated 192.0.2.1 198.51.100.7 64519",
);

/// The Map-Request, which goes out with the last frame of its round.
const ASKED_LATE: Departure<'static> = (0, 100_000_000, &CONTROL, &[]);

const CARRIED_AFTER: Departure<'static> = (0, 300_000_000, &SENT, &[(28, 0x48), (34, 0x64)]);

const CARRIED_LAST: Departure<'static> = (0, 400_000_000, &SENT, &[(28, 0x48), (34, 0x64)]);

// Report and output in both ways: the packet behind the Map-Reply is decided before or after it.
fn both_ways(alloc: Global) -> Result<[Whole; 2], NoMemory> {
    let before = whole_of(
        alloc,
        &[MISS, SECOND_MISS, REPLIED, BEFORE, LAST],
        "end frames=5 written=2 entries=3",
        &[ASKED_LATE, CARRIED_LAST],
    )?;
    let after = whole_of(
        alloc,
        &[MISS, SECOND_MISS, REPLIED, AFTER, LAST],
        "end frames=5 written=3 entries=3",
        &[ASKED_LATE, CARRIED_AFTER, CARRIED_LAST],
    )?;
    Ok([before, after])
}

fn shared_exchange_fails<R: Abort + Threads + Wait + Sync>(
    rt: &R,
    alloc: Global,
) -> Result<u64, NoMemory> {
    let capture = capture_of(alloc, &RAW, &[MISS, SECOND_MISS, REPLIED, AFTER, LAST])?;
    let ways = both_ways(alloc)?;
    first_done(rt, alloc, &SHARED, capture.as_slice(), &ways)
}

#[test]
fn with_workers_too_what_was_said_and_sent_is_a_beginning(rt: HostRuntime) -> Result<(), Fail> {
    assert!(rt; shared_exchange_fails(&rt, rt.alloc())? > 8);
    Ok(())
}

// A run whose memory is refused can't be made here, so only the number of its status is tested.
#[test]
fn refused_memory_is_status_five(rt: HostRuntime) -> Result<(), Fail> {
    assert_eq!(rt; Status::Memory as u8, 5);
    Ok(())
}
