// The captures that are written.
ghost use Rattle.std.specs.Prelude.{◌≡◌, ◌≤◌, ◌<◌, ◌*◌, ◌^◌, ◌++◌, length, OnOk, OnErr};
ghost use Rattle.capture_io.specs.Limits.{most_frame_octets};
ghost use Rattle.capture_io.specs.Output.{out_header, record_header, packet_record};

use octets::{NoMemory, Octets};

// The header of a written capture: nanoseconds, little-endian; version 2.4; zone and accuracy 0;
// snap length 262,144; raw IP.
const HEADER: [u8; 24] = [
    0x4d, 0x3c, 0xb2, 0xa1, 2, 0, 4, 0, 0, 0, 0, 0, 0, 0, 0, 0, 0, 0, 4, 0, 101, 0, 0, 0,
];

/// Appends the header of a capture of raw IP packets with nanoseconds: 24 octets.
pub fn write_header(out: &mut Octets) -> Result<(), NoMemory>
    ensures ok { OnOk result (out.new ≡ out.old ++ out_header) }
    ensures err { OnErr result (out.new ≡ out.old) }
{
    out.append(&HEADER)
}

/// Appends a packet's record: 16 octets and the packet. The moment is in nanoseconds, and below
/// 2^32 seconds.
pub fn write_packet(moment: u64, packet: &[u8], out: &mut Octets) -> Result<(), NoMemory>
    requires moment { moment < 2 ^ 32 * 1000000000 }
    requires size { length packet.now ≤ most_frame_octets }
    ensures ok { OnOk result (out.new ≡ out.old ++ packet_record moment packet.now) }
    ensures err { OnErr result (out.new ≡ out.old) }
{
    let header = record_header(moment, packet.len() as u32);
    out.append_both(&header, packet)
}

fn record_header(moment: u64, size: u32) -> [u8; 16]
    requires { moment < 2 ^ 32 * 1000000000 }
    ensures { result ≡ record_header moment size }
{
    let seconds = (moment / 1_000_000_000) as u32;
    let fraction = (moment % 1_000_000_000) as u32;
    let mut header = [0; 16];
    header[..4].copy_from_slice(&seconds.to_le_bytes());
    header[4..8].copy_from_slice(&fraction.to_le_bytes());
    header[8..12].copy_from_slice(&size.to_le_bytes());
    header[12..].copy_from_slice(&size.to_le_bytes());
    header
}
