// As many requests of an instance as may be open at once.
use desk::MemoryDesk;
use octets::{NoMemory, Octets};
use replay::Status;
use run_rows::exchanges::TENANT;
use run_rows::packets::{CONTROL, PACKET, WRITTEN, changed, push_record};
use run_rows::runs::replayed;
use std::alloc::Global;
use std::process::Abort;
use std::test::Fail;

// The packet to the address that is `number` after 10.2.0.0.
fn packet_to(alloc: Global, number: u16) -> Result<Vec<u8>, NoMemory> {
    let [high, low] = number.to_be_bytes();
    let [first, second] = 0x66ca_u16.wrapping_sub(number).to_be_bytes();
    let edits = [(10, first), (11, second), (18, high), (19, low)];
    changed(alloc, &PACKET, 28, &edits)
}

// Packets to 1,025 addresses, each a millisecond after the one before, and one more to the last
// address at 7 s.
fn capture_of_misses(alloc: Global) -> Result<Octets, NoMemory> {
    let mut capture = Octets::copied(alloc, &WRITTEN)?;
    for number in 0..1025_u16 {
        let millisecond = u32::from(number);
        let second = 1_700_000_000 + millisecond / 1000;
        let nanosecond = millisecond % 1000 * 1_000_000;
        push_record(second, nanosecond, &packet_to(alloc, number)?, &mut capture)?;
    }
    push_record(1_700_000_007, 0, &packet_to(alloc, 1024)?, &mut capture)?;
    Ok(capture)
}

// The report on these packets. At 1 s the first request is sent again, and by 7 s each of the 1,024
// requests was sent again twice.
fn report_of_misses(alloc: Global) -> Result<String, NoMemory> {
    let mut report = String::new(alloc);
    for number in 0..1025_u32 {
        let frame = number + 1;
        let second = 1_700_000_000 + number / 1000;
        let millisecond = number % 1000;
        let known = number + number / 1000;
        report.push_str(&format!(in alloc;
            "{frame} {second}.{millisecond:03}000000 n={known} drop 13 miss\n"
        )?)?;
    }
    report.push_str("1026 1700000007.000000000 n=3072 drop 13 miss\n")?;
    report.push_str("end frames=1026 written=3073 entries=3073\n")?;
    Ok(report)
}

// The record of a Map-Request in an output, with some octets changed.
fn record_of(
    alloc: Global,
    second: u32,
    nanosecond: u32,
    edits: &[(usize, u8)],
) -> Result<Octets, NoMemory> {
    let packet = changed(alloc, &CONTROL, 116, edits)?;
    let mut record = Octets::new(alloc);
    push_record(second, nanosecond, &packet, &mut record)?;
    Ok(record)
}

// The octets of a Map-Request that change for 10.2.0.0; those below are for 10.2.0.1, 10.2.3.255
// and 10.2.4.0.
const FIRST_ASKED: [(usize, u8); 5] = [(27, 0x8b), (43, 0x96), (51, 0), (59, 0x5a), (115, 0)];

const SECOND_ASKED: [(usize, u8); 14] = [
    (27, 0x8c),
    (43, 0x95),
    (51, 1),
    (58, 0x40),
    (59, 0x75),
    (64, 0xd6),
    (65, 0x40),
    (66, 0x5f),
    (67, 0x89),
    (68, 0x2f),
    (69, 0xef),
    (70, 0),
    (71, 0x3e),
    (115, 1),
];

const LAST_ASKED: [(usize, u8); 18] = [
    (26, 0x2f),
    (27, 0x8a),
    (42, 0x6a),
    (43, 0x97),
    (50, 3),
    (51, 0xff),
    (58, 0x4b),
    (59, 0xd2),
    (64, 0x40),
    (65, 0xaf),
    (66, 0xe1),
    (67, 0x63),
    (68, 0x73),
    (69, 0xfc),
    (70, 0xbc),
    (71, 0x8e),
    (114, 3),
    (115, 0xff),
];

const LATE_ASKED: [(usize, u8); 18] = [
    (26, 0x2f),
    (27, 0x8b),
    (42, 0x6a),
    (43, 0x96),
    (50, 4),
    (51, 0),
    (58, 0x2d),
    (59, 0xbe),
    (64, 0x7e),
    (65, 0x67),
    (66, 0x99),
    (67, 0xef),
    (68, 0xbf),
    (69, 0x92),
    (70, 0x98),
    (71, 0xc6),
    (114, 4),
    (115, 0),
];

#[test]
fn so_many_requests_are_open_at_once(rt: HostRuntime) -> Result<(), Fail> {
    let capture = capture_of_misses(rt.alloc())?;
    let (status, desk) = replayed(&rt, rt.alloc(), TENANT, capture)?;
    assert_eq!(rt; status, Status::Done);
    assert_report(&rt, rt.alloc(), &desk)?;
    assert_requests(&rt, rt.alloc(), desk.file("out").unwrap_or(&[]))?;
    Ok(())
}

fn assert_report(rt: &impl Abort, alloc: Global, desk: &MemoryDesk) -> Result<(), NoMemory> {
    let report = report_of_misses(alloc)?;
    assert_eq!(rt; desk.said(), report.as_str().as_bytes());
    Ok(())
}

// Asserts the size of the output, and that Map-Requests for these four addresses stand at their
// places in it.
fn assert_requests(rt: &impl Abort, alloc: Global, output: &[u8]) -> Result<(), NoMemory> {
    assert_eq!(rt; output.len(), 405_660);
    let rows: [(usize, u32, u32, &[(usize, u8)]); 6] = [
        (24, 1_700_000_000, 0, &FIRST_ASKED),
        (156, 1_700_000_000, 1_000_000, &SECOND_ASKED),
        (132_024, 1_700_000_001, 0, &FIRST_ASKED),
        (135_192, 1_700_000_001, 23_000_000, &LAST_ASKED),
        (405_396, 1_700_000_005, 0, &LAST_ASKED),
        (405_528, 1_700_000_007, 0, &LATE_ASKED),
    ];
    for (place, second, nanosecond, edits) in rows {
        let record = record_of(alloc, second, nanosecond, edits)?;
        assert_eq!(rt; output.get(place..place + 132), Some(record.as_slice()));
    }
    Ok(())
}
