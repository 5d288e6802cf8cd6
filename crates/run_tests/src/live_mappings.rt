// As many mappings as may be live at once.
use desk::MemoryDesk;
use octets::NoMemory;
use replay::Status;
use run_rows::exchanges::{ASKED, Arrival, TENANT, capture_of, output_of, report_of};
use run_rows::packets::{PACKET, REPLY, WRITTEN};
use run_rows::runs::replayed;
use std::alloc::Global;
use std::process::Abort;
use std::sync::Wait;
use std::test::Fail;
use std::thread::Threads;

// A miss and its Map-Reply where no further mapping may live.
const FULL: [Arrival<'static>; 2] = [
    (0, 0, &PACKET, "1 1700000000.000000000 n=65536 drop 13 miss"),
    (
        0,
        100_000_000,
        &REPLY,
        "2 1700000000.100000000 n=65537 control reply learned=0 passed=1",
    ),
];

// The settings of a site with 65,536 mappings, each of one address.
fn full_site(alloc: Global) -> Result<String, NoMemory> {
    let mut settings = String::from_str(alloc, TENANT)?;
    for number in 0..=u16::MAX {
        let [high, low] = number.to_be_bytes();
        settings.push_str(&format!(in alloc;
            "[[mapping]]\niid = 100\nprefix = \"20.0.{high}.{low}/32\"\n"
        )?)?;
    }
    Ok(settings)
}

// The status of a replay at the full site, and its desk.
fn replayed_in_full<R: Threads + Wait + Sync>(
    rt: &R,
    alloc: Global,
) -> Result<(Status, MemoryDesk), NoMemory> {
    let settings = full_site(alloc)?;
    let capture = capture_of(alloc, &WRITTEN, &FULL)?;
    replayed(rt, alloc, settings.as_str(), capture)
}

fn assert_report(rt: &impl Abort, alloc: Global, desk: &MemoryDesk) -> Result<(), NoMemory> {
    let report = report_of(alloc, &FULL, "end frames=2 written=1 entries=65538")?;
    assert_eq!(rt; desk.said(), report.as_str().as_bytes());
    Ok(())
}

fn assert_output(rt: &impl Abort, alloc: Global, desk: &MemoryDesk) -> Result<(), NoMemory> {
    let output = output_of(alloc, &[ASKED])?;
    assert_eq!(rt; desk.file("out"), Some(output.as_slice()));
    Ok(())
}

#[test]
fn so_many_mappings_are_live_at_once(rt: HostRuntime) -> Result<(), Fail> {
    let (status, desk) = replayed_in_full(&rt, rt.alloc())?;
    assert_eq!(rt; status, Status::Done);
    assert_report(&rt, rt.alloc(), &desk)?;
    assert_output(&rt, rt.alloc(), &desk)?;
    Ok(())
}
