// Exchanges with a resolver: the frames of a capture, the lines that report them, and the packets
// that are sent.
use crate::packets::{CONTROL, PACKET, REPLY, SENT, WRITTEN, changed, push_record};
use octets::{NoMemory, Octets};
use std::alloc::Global;

/// A frame of a capture: its second after 1,700,000,000, its fraction in the unit of the capture,
/// its octets, and its line in the report.
pub type Arrival<'a> = (u32, u32, &'a [u8], &'a str);

/// A packet that is sent: its second after 1,700,000,000, its nanosecond, its octets, and the
/// changes of these, each by place and value.
pub type Departure<'a> = (u32, u32, &'a [u8], &'a [(usize, u8)]);

/// The settings of a site in instance 100 with a resolver, and with one nonce in the list.
pub const TENANT: &str = r#"
resolver = "203.0.113.9"
nonces = ["0102030405060708"]
[[locator]]
address = "192.0.2.1"
[[attachment]]
vlan = 0
iid = 100
[[database]]
iid = 100
prefix = "10.1.0.0/16"
"#;

/// The packet at 0 s, which has no mapping yet.
pub const MISS: Arrival<'static> = (0, 0, &PACKET, "1 1700000000.000000000 n=0 drop 13 miss");

/// The Map-Request for the packet that has no mapping.
pub const ASKED: Departure<'static> = (0, 0, &CONTROL, &[]);

/// The Map-Reply at 0.1 s, in a capture in microseconds.
pub const LEARNED: Arrival<'static> = (
    0,
    100_000,
    &REPLY,
    "2 1700000000.100000000 n=1 control reply learned=1 passed=0",
);

/// The packet again at 0.2 s, in a capture in microseconds.
pub const USED: Arrival<'static> = (
    0,
    200_000,
    &PACKET,
    "3 1700000000.200000000 n=3 encapsulated 192.0.2.1 198.51.100.7 64519",
);

/// The packet of 0.2 s in its tunnel, of instance 100.
pub const CARRIED: Departure<'static> = (0, 200_000_000, &SENT, &[(28, 0x48), (34, 0x64)]);

// Appends a record at a second after 1,700,000,000.
fn push_at(second: u32, fraction: u32, octets: &[u8], out: &mut Octets) -> Result<(), NoMemory> {
    push_record(second.wrapping_add(1_700_000_000), fraction, octets, out)
}

/// The capture of these frames, behind a header.
pub fn capture_of(
    alloc: Global,
    header: &[u8],
    frames: &[Arrival<'_>],
) -> Result<Octets, NoMemory> {
    let mut capture = Octets::copied(alloc, header)?;
    for (second, fraction, octets, _) in frames {
        push_at(*second, *fraction, octets, &mut capture)?;
    }
    Ok(capture)
}

/// The output with these packets.
pub fn output_of(alloc: Global, packets: &[Departure<'_>]) -> Result<Octets, NoMemory> {
    let mut output = Octets::copied(alloc, &WRITTEN)?;
    for (second, nanosecond, octets, edits) in packets {
        let packet = changed(alloc, octets, octets.len(), edits)?;
        push_at(*second, *nanosecond, &packet, &mut output)?;
    }
    Ok(output)
}

/// The report on these frames: their lines, and the last line.
pub fn report_of(alloc: Global, frames: &[Arrival<'_>], end: &str) -> Result<String, NoMemory> {
    let mut report = String::new(alloc);
    for (_, _, _, line) in frames {
        report.push_str(line)?;
        report.push_str("\n")?;
    }
    report.push_str(end)?;
    report.push_str("\n")?;
    Ok(report)
}
