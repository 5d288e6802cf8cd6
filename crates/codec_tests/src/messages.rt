// Messages that this router reads and doesn't send.
ghost use Rattle.std.specs.Prelude.{◌≤◌, length};

use map_messages::{read_message, write_message};
use octets::Octets;
use std::alloc::Global;
use std::process::Abort;
use std::test::Fail;

/// An Encapsulated Control Message from 2001:db8::1 to 2001:db8::2, with an empty Map-Reply to a
/// probe from octet 52 on. The UDP checksum was computed by another program.
const ECM_V6: [u8; 64] = [
    0x80, 0x00, 0x00, 0x00, 0x60, 0x00, 0x00, 0x00, 0x00, 0x14, 0x11, 0x40, 0x20, 0x01, 0x0d, 0xb8,
    0x00, 0x00, 0x00, 0x00, 0x00, 0x00, 0x00, 0x00, 0x00, 0x00, 0x00, 0x01, 0x20, 0x01, 0x0d, 0xb8,
    0x00, 0x00, 0x00, 0x00, 0x00, 0x00, 0x00, 0x00, 0x00, 0x00, 0x00, 0x02, 0x10, 0xf6, 0x10, 0xf6,
    0x00, 0x14, 0xc7, 0xce, 0x28, 0x00, 0x00, 0x00, 0xa1, 0xa2, 0xa3, 0xa4, 0xa5, 0xa6, 0xa7, 0xa8,
];

fn written(alloc: Global, octets: &[u8]) -> Result<Octets, Fail>
    requires { length octets.now ≤ 65000 }
{
    let Ok((message, _)) = read_message(alloc, octets, 0) else {
        return Err("a message")?;
    };
    let mut out = Octets::new(alloc);
    write_message(alloc, &message, &mut out)?;
    Ok(out)
}

// Asserts that the message that these octets spell is written as the expected ones.
fn assert_written(
    rt: &impl Abort,
    alloc: Global,
    octets: &[u8],
    expected: &[u8],
) -> Result<(), Fail>
    requires { length octets.now ≤ 65000 }
{
    let out = written(alloc, octets)?;
    assert_eq!(rt; out.as_slice(), expected);
    Ok(())
}

#[test]
fn what_is_ignored_is_written_as_0_and_all_else_again(rt: HostRuntime) -> Result<(), Fail> {
    assert_written(&rt, rt.alloc(), &ECM_V6, &ECM_V6)?;
    // A Map-Request with all flags set, of which only M, P, S and s are kept, two ITR-RLOCs, no EID
    // record, and one record.
    let octets = [
        0x1f, 0xff, 0xe1, 0, 1, 2, 3, 4, 5, 6, 7, 8, 0, 1, 10, 1, 0, 5, 0, 1, 192, 0, 2, 1, 0, 2,
        0x20, 1, 0x0d, 0xb8, 0, 0, 0, 0, 0, 0, 0, 0, 0, 0, 0, 1, 0, 0, 0, 9, 0, 32, 0x10, 0, 0, 0,
        0, 1, 10, 1, 0, 5,
    ];
    let mut expected = octets;
    expected[0] = 0x17;
    expected[1] = 0x40;
    expected[2] = 1;
    assert_written(&rt, rt.alloc(), &octets, &expected)
}
