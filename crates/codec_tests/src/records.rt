// A record of a worked reply.
use mapping_records::{read_record, write_record};
use octets::Octets;
use std::test::Fail;

/// The record of 10.2.0.0/16 of instance 100 for 60 minutes, with the locator 198.51.100.7.
const RECORD: [u8; 40] = [
    0x00, 0x00, 0x00, 0x3c, 0x01, 0x10, 0x10, 0x00, 0x00, 0x00, 0x40, 0x03, 0x00, 0x00, 0x02, 0x00,
    0x00, 0x0a, 0x00, 0x00, 0x00, 0x64, 0x00, 0x01, 0x0a, 0x02, 0x00, 0x00, 0x01, 0x64, 0xff, 0x00,
    0x00, 0x01, 0x00, 0x01, 0xc6, 0x33, 0x64, 0x07,
];

#[test]
fn what_is_ignored_is_written_as_0(rt: HostRuntime) -> Result<(), Fail> {
    let mut octets = RECORD;
    for at in [7, 12, 13, 15, 27, 32] {
        octets[at] = 0xff;
    }
    octets[8] = 0xf0;
    octets[33] = 0xf9;
    let (record, _) = read_record(rt.alloc(), &octets, 0).ok().ok_or("a record")?;
    let mut out = Octets::new(rt.alloc());
    write_record(rt.alloc(), &record, &mut out)?;
    assert_eq!(rt; out.as_slice(), RECORD.as_slice());
    Ok(())
}
