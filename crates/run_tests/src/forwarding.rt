// Runs with forwarder threads, for what no row can state: that the threads run side by side, and
// which reports are possible.
use desk::{Calls, MemoryDesk};
use octets::NoMemory;
use replay::{Gate, Status, Word, run};
use run_rows::exchanges::{Arrival, Departure, TENANT, capture_of, output_of};
use run_rows::packets::{CONTROL, PACKET, RAW, REPLY};
use run_rows::runs::{desk_with, run_words, said};
use std::alloc::Global;
use std::process::Abort;
use std::sync::Wait;
use std::sync::atomic::{AtomicU64, Ordering};
use std::test::Fail;
use std::thread::Threads;

/// A site with one mapping.
pub(crate) const SITE: &str = r#"
[[locator]]
address = "192.0.2.1"
[[attachment]]
vlan = 0
iid = 0
[[database]]
iid = 0
prefix = "10.1.0.0/16"
[[mapping]]
iid = 0
prefix = "10.2.0.0/16"
[[mapping.locator]]
address = "198.51.100.7"
"#;

/// Two packets for the mapping of `SITE`.
const TWO: [Arrival<'static>; 2] = [(0, 0, &PACKET, ""), (0, 1, &PACKET, "")];

/// The turns for which a worker waits for the other: some seconds, since a machine with other work to do
/// starts a thread late.
const TURNS: u32 = 4_000_000_000;

/// A gate that holds each of two workers until the other has come.
#[derive(Drop)]
pub(crate) struct Meeting {
    first: AtomicU64,
    second: AtomicU64,
    missed: AtomicU64,
}

impl Meeting {
    pub(crate) fn new() -> Meeting {
        Meeting {
            first: AtomicU64::new(0),
            second: AtomicU64::new(0),
            missed: AtomicU64::new(0),
        }
    }

    /// Asserts that both workers came, and that neither waited in vain.
    pub(crate) fn was_kept(&self, rt: &impl Abort) {
        assert_eq!(rt; self.first.load(Ordering::SeqCst), 1);
        assert_eq!(rt; self.second.load(Ordering::SeqCst), 1);
        assert_eq!(rt; self.missed.load(Ordering::SeqCst), 0);
    }
}

impl Gate for Meeting {
    fn before(&self, worker: u32, _number: u32) {
        let (own, other) = if worker == 0 {
            (&self.first, &self.second)
        } else {
            (&self.second, &self.first)
        };
        own.store(1, Ordering::SeqCst);
        for _ in 0..TURNS {
            if other.load(Ordering::SeqCst) == 1 {
                return;
            }
        }
        self.missed.store(1, Ordering::SeqCst);
    }
}

fn words_of(alloc: Global, words: &[&str]) -> Result<Vec<Word>, NoMemory> {
    let mut owned: Vec<Word> = Vec::new(alloc);
    for word in words {
        owned.push(String::from_str(alloc, word)?)?;
    }
    Ok(owned)
}

// A replay of settings and frames by two workers, through the gate: its status and its desk.
fn ran_through<R: Threads + Wait + Sync, G: Gate>(
    rt: &R,
    alloc: Global,
    settings: &str,
    frames: &[Arrival<'_>],
    gate: &G,
) -> Result<(Status, MemoryDesk), NoMemory> {
    let words = words_of(
        alloc,
        &[
            "replay",
            "--settings",
            "settings",
            "--in",
            "in",
            "--out",
            "out",
            "--workers",
            "2",
        ],
    )?;
    let capture = capture_of(alloc, &RAW, frames)?;
    let mut desk = desk_with(alloc, settings, capture, Calls::new(alloc))?;
    let status = run(rt, alloc, &words, &mut desk, gate);
    Ok((status, desk))
}

#[test]
fn forwarders_run_side_by_side(rt: HostRuntime) -> Result<(), Fail> {
    let gate = Meeting::new();
    let (status, _) = ran_through(&rt, rt.alloc(), SITE, &TWO, &gate)?;
    assert_eq!(rt; status, Status::Done);
    gate.was_kept(&rt);
    Ok(())
}

/// A site with one mapping, whose locator is probed once a minute.
const PROBING: &str = r#"
probe = true
[[locator]]
address = "192.0.2.1"
[[attachment]]
vlan = 0
iid = 0
[[database]]
iid = 0
prefix = "10.1.0.0/16"
[[mapping]]
iid = 0
prefix = "10.2.0.0/16"
[[mapping.locator]]
address = "198.51.100.7"
"#;

/// Five packets for the mapping of `PROBING`, the last of which comes days later: each minute in
/// between is a batch.
const FIVE: [Arrival<'static>; 5] = [
    (0, 0, &PACKET, ""),
    (0, 0, &PACKET, ""),
    (0, 0, &PACKET, ""),
    (0, 0, &PACKET, ""),
    (300_000, 0, &PACKET, ""),
];

/// The turns for which the first packet is held: some hundredths of a second.
const PAUSE: u32 = 20_000_000;

/// A gate for five packets that fall to two workers in turn. It holds the first packet for a while, and the
/// second one until the fifth comes, before which the third was decided.
#[derive(Drop)]
struct Overtaking {
    fifth: AtomicU64,
    missed: AtomicU64,
}

impl Overtaking {
    fn new() -> Overtaking {
        Overtaking {
            fifth: AtomicU64::new(0),
            missed: AtomicU64::new(0),
        }
    }

    // Waits for the fifth packet, for so many turns at most, and returns whether it came.
    fn waits(&self, turns: u32) -> bool {
        for _ in 0..turns {
            if self.fifth.load(Ordering::SeqCst) == 1 {
                return true;
            }
        }
        false
    }
}

impl Gate for Overtaking {
    fn before(&self, _worker: u32, number: u32) {
        if number == 1 {
            let _ = self.waits(PAUSE);
        }
        if number == 2 && !self.waits(TURNS) {
            self.missed.store(1, Ordering::SeqCst);
        }
        if number == 5 {
            self.fifth.store(1, Ordering::SeqCst);
        }
    }
}

// The number of entries in the line at that place of the report, the first one at 0.
fn count_in(report: &str, place: usize) -> u64 {
    let line = report.lines().nth(place).unwrap_or("");
    let word = line.splitn(4, ' ').nth(2).unwrap_or("");
    match word.strip_prefix("n=") {
        Some(digits) => digits.parse::<u64>().unwrap_or(0),
        None => 0,
    }
}

// The second packet is decided behind its gate, so after the third, and by no fewer entries. If it
// were decided before its gate is called, that would be at the start of the round, long before the
// third.
#[test]
fn a_packet_that_its_gate_holds_is_decided_after_those_that_pass(
    rt: HostRuntime,
) -> Result<(), Fail> {
    let gate = Overtaking::new();
    let (status, desk) = ran_through(&rt, rt.alloc(), PROBING, &FIVE, &gate)?;
    assert_eq!(rt; status, Status::Done);
    assert_eq!(rt; gate.fifth.load(Ordering::SeqCst), 1);
    assert_eq!(rt; gate.missed.load(Ordering::SeqCst), 0);
    let report = said(&desk)?;
    let (second, third) = (count_in(report, 1), count_in(report, 2));
    assert!(rt; 1 <= third && third <= second, "{second} {third}");
    Ok(())
}

/// Five packets without a mapping, the Map-Reply, and two packets more.
const EIGHT: [Arrival<'static>; 8] = [
    (0, 0, &PACKET, "n=0 drop 13 miss"),
    (0, 100_000, &PACKET, "n=0 drop 13 miss"),
    (0, 200_000, &PACKET, "n=0 drop 13 miss"),
    (0, 300_000, &PACKET, "n=0 drop 13 miss"),
    (0, 400_000, &PACKET, ""),
    (0, 500_000, &REPLY, "n=1 control reply learned=1 passed=0"),
    (0, 600_000, &PACKET, ""),
    (0, 700_000, &PACKET, ""),
];

/// The Map-Request for the first packets of `EIGHT`, which goes out with the last frame of their
/// round, before all other packets.
const REQUESTED: [Departure<'static>; 1] = [(0, 300_000_000, &CONTROL, &[])];

/// The end of the line of a packet beside the Map-Reply that is decided before it; `AFTER` is that
/// of one decided after all of it.
const BEFORE: &str = "n=1 drop 13 miss";

const AFTER: &str = "n=3 encapsulated 192.0.2.1 198.51.100.7 64519";

// A replay of `EIGHT` by two workers, in rounds of four frames: its status and its desk.
fn eight_replayed<R: Threads + Wait + Sync>(
    rt: &R,
    alloc: Global,
) -> Result<(Status, MemoryDesk), NoMemory> {
    let capture = capture_of(alloc, &RAW, &EIGHT)?;
    let mut desk = desk_with(alloc, TENANT, capture, Calls::new(alloc))?;
    let words = [
        "replay",
        "--settings",
        "settings",
        "--in",
        "in",
        "--out",
        "out",
        "--workers",
        "2",
        "--round",
        "4",
    ];
    let status = run_words(rt, alloc, &words, &mut desk)?;
    Ok((status, desk))
}

// Asserts that each line of the report has its wanted words behind number and moment, or `BEFORE`
// or `AFTER` where none are given. Returns how many packets went into the tunnel.
fn carried(rt: &impl Abort, report: &str) -> u32 {
    let mut lines = report.lines();
    let mut carried = 0_u32;
    for (_, _, _, wanted) in EIGHT {
        let line = lines.next().unwrap_or("");
        let verdict = line.splitn(3, ' ').nth(2).unwrap_or("");
        if wanted.is_empty() {
            assert!(rt; verdict == BEFORE || verdict == AFTER, "{line}");
        } else {
            assert_eq!(rt; verdict, wanted, "{line}");
        }
        if verdict == AFTER {
            carried = carried.saturating_add(1);
        }
    }
    carried
}

#[test]
fn a_packet_beside_a_reply_is_decided_before_it_or_after_all_of_it(
    rt: HostRuntime,
) -> Result<(), Fail> {
    let (status, desk) = eight_replayed(&rt, rt.alloc())?;
    assert_eq!(rt; status, Status::Done);
    let report = said(&desk)?;
    let written = carried(&rt, report).saturating_add(1);
    let end = format!(in rt.alloc(); "end frames=8 written={written} entries=3\n")?;
    assert!(rt; report.ends_with(end.as_str()), "{report}");
    let requested = output_of(rt.alloc(), &REQUESTED)?;
    let output = desk.file("out").unwrap_or(&[]);
    assert!(rt; output.starts_with(requested.as_slice()));
    Ok(())
}
