// Trials: the largest one, and the hash of an output.
use desk::{Calls, Files, MemoryDesk, SteadyDesk};
use octets::{NoMemory, Octets};
use replay::Status;
use run_rows::packets::{RAW, changed, push_record};
use run_rows::runs::{REPLAY, files_of, run_words};
use std::alloc::Global;
use std::process::Abort;
use std::sync::Wait;
use std::test::Fail;
use std::thread::Threads;
use trial_input::trial_capture;

/// The most mappings of a trial.
const MOST_MAPPINGS: u32 = 50_000;

/// The site of a trial.
const SITE: &str = r#"
[[locator]]
address = "198.51.100.1"
[[attachment]]
vlan = 0
iid = 0
[[database]]
iid = 0
prefix = "192.168.0.0/16"
"#;

/// The settings of a trial of three mappings.
const THREE: &str = r#"
[[locator]]
address = "198.51.100.1"
[[attachment]]
vlan = 0
iid = 0
[[database]]
iid = 0
prefix = "192.168.0.0/16"
[[mapping]]
iid = 0
prefix = "20.0.0.0/24"
locator = [{address = "203.0.113.1", priority = 1, weight = 1}]
[[mapping]]
iid = 0
prefix = "20.0.1.0/24"
locator = [{address = "203.0.113.2", priority = 1, weight = 1}]
[[mapping]]
iid = 0
prefix = "20.0.2.0/24"
locator = [{address = "203.0.113.3", priority = 1, weight = 1}]
"#;

/// A packet with UDP 1000 to 2000 from 192.168.0.1 to 20.0.0.1, TTL 64.
const FIRST: [u8; 28] = [
    0x45, 0x00, 0x00, 0x1c, 0x00, 0x00, 0x00, 0x00, 0x40, 0x11, 0xa6, 0x27, 0xc0, 0xa8, 0x00, 0x01,
    0x14, 0x00, 0x00, 0x01, 0x03, 0xe8, 0x07, 0xd0, 0x00, 0x08, 0x00, 0x00,
];

// The hash of octets by FNV-1a of 32 bits.
fn hash_of(octets: &[u8]) -> u32 {
    let mut hash = 0x811c_9dc5u32;
    for octet in octets {
        hash = (hash ^ u32::from(*octet)).wrapping_mul(0x0100_0193);
    }
    hash
}

#[test]
fn the_largest_trial_says_one_line_and_makes_no_file(rt: HostRuntime) -> Result<(), Fail> {
    let mut desk = MemoryDesk::new(rt.alloc(), Files::new(rt.alloc()), Calls::new(rt.alloc()));
    let status = run_words(&rt, rt.alloc(), &["trial", "50000"], &mut desk)?;
    assert_eq!(rt; status, Status::Done);
    assert_line_alone(&rt, &desk);
    Ok(())
}

fn assert_line_alone(rt: &impl Abort, desk: &MemoryDesk) {
    let line = b"trial 50000 frames=50001 written=50000 entries=50000 hash=45ce7d18\n";
    assert_eq!(rt; desk.said(), line.as_slice());
    assert_eq!(rt; desk.file("in"), None);
    assert_eq!(rt; desk.file("out"), None);
}

// The status of a replay of settings and a capture, and its desk.
fn replayed<R: Threads + Wait + Sync>(
    rt: &R,
    alloc: Global,
    settings: &str,
    capture: &[u8],
) -> Result<(Status, SteadyDesk), NoMemory> {
    let files = files_of(alloc, &[("settings", settings.as_bytes()), ("in", capture)])?;
    let mut desk = SteadyDesk::new(alloc, files);
    let status = run_words(rt, alloc, &REPLAY, &mut desk)?;
    Ok((status, desk))
}

// The packets of a trial of three mappings. Frame j of three goes to mapping 7 j modulo 3, so that
// each has a mapping of its own; the last frame has none.
fn three_packets(alloc: Global) -> Result<Octets, NoMemory> {
    let rows: [(u32, &[(usize, u8)]); 4] = [
        (0, &[]),
        (1, &[(10, 0xa5), (18, 1)]),
        (2, &[(10, 0xa4), (18, 2)]),
        (3, &[(10, 0xa5), (16, 0x15)]),
    ];
    let mut capture = Octets::copied(alloc, &RAW)?;
    for (microsecond, edits) in rows {
        let frame = changed(alloc, &FIRST, 28, edits)?;
        push_record(1_700_000_000, microsecond, &frame, &mut capture)?;
    }
    Ok(capture)
}

// Asserts the end of the report, and the hash of the output.
fn assert_ended(rt: &impl Abort, desk: &SteadyDesk, end: &[u8], hash: u32) {
    assert!(rt; desk.said().ends_with(end));
    assert_eq!(rt; hash_of(desk.file("out").unwrap_or(&[])), hash);
}

#[test]
fn the_hash_of_a_trial_is_that_of_the_output_of_its_replay(rt: HostRuntime) -> Result<(), Fail> {
    let capture = three_packets(rt.alloc())?;
    let (status, desk) = replayed(&rt, rt.alloc(), THREE, capture.as_slice())?;
    assert_eq!(rt; status, Status::Done);
    assert_ended(
        &rt,
        &desk,
        b"end frames=4 written=3 entries=3\n",
        0x8e6d_bc18,
    );
    assert_eq!(rt; desk.file("out").unwrap_or(&[]).len(), 264);
    Ok(())
}

// The settings of a trial with the most mappings.
fn most_settings(alloc: Global) -> Result<String, NoMemory> {
    let mut text = String::from_str(alloc, SITE)?;
    for i in 0..MOST_MAPPINGS {
        let (high, low, host) = (i / 256, i % 256, i % 254 + 1);
        text.push_str(format!(in alloc;
            "[[mapping]]\niid = 0\nprefix = '20.{high}.{low}.0/24'\n\
            locator = [{{address = '203.0.113.{host}', priority = 1, weight = 1}}]\n"
        )?
        .as_str())?;
    }
    Ok(text)
}

fn largest_replayed<R: Threads + Wait + Sync>(
    rt: &R,
    alloc: Global,
) -> Result<(Status, SteadyDesk), NoMemory> {
    let settings = most_settings(alloc)?;
    let capture = trial_capture(alloc, MOST_MAPPINGS)?;
    replayed(rt, alloc, settings.as_str(), capture.as_slice())
}

#[test]
fn the_largest_trial_is_replayed_from_its_files(rt: HostRuntime) -> Result<(), Fail> {
    let (status, desk) = largest_replayed(&rt, rt.alloc())?;
    assert_eq!(rt; status, Status::Done);
    assert_ended(
        &rt,
        &desk,
        b"end frames=50001 written=50000 entries=50000\n",
        0x45ce_7d18,
    );
    Ok(())
}
