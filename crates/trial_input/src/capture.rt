// The capture of a trial.
ghost use Rattle.std.specs.Prelude.{◌≡◌, ◌≤◌, ◌<◌, ◌++◌, ◌+◌, ◌*◌, length, None, IfOk, OnOk};
ghost use Rattle.octets.specs.Rules.{first_failing};
ghost use Rattle.capture_io.specs.Capture.{header_rules};
ghost use Rattle.capture_io.specs.Frames.{capture};
ghost use Rattle.capture_io.specs.Output.{out_header, packet_record};
ghost use Rattle.mapping_records.specs.Limits.{most_mappings};
ghost use Rattle.capture_events.specs.Events.{records_of};
ghost use Rattle.playback.specs.Written.{frames_of};
ghost use Rattle.trial_input.specs.Trial.{datagram_to, packet_to, trial_packets};

use crate::settings::prefix_addr;
use capture_io::{write_header, write_packet};
use ip_headers::{Addr, V4Header, write_udp, write_v4};
use octets::{NoMemory, Octets};
use playback::what_is_written_is_read;
use std::alloc::Global;

// The moment of the first frame, in nanoseconds.
const BEGIN: u64 = 1_700_000_000_000_000_000;

// The source of all packets, an address of the site: 192.168.0.1.
const SOURCE: u32 = 0xc0a8_0001;

// The destination of the last packet, which no mapping covers: 21.0.0.1.
const ELSEWHERE: u32 = 0x1500_0001;

/// A capture of `n` + 1 packets, a microsecond apart: packet `j` of `n` to the first host of prefix
/// 7 `j` mod `n`, and a last one that no mapping covers.
pub fn trial_capture(alloc: Global, n: u32) -> Result<Octets, NoMemory>
    requires { n ≤ most_mappings }
    ensures file { IfOk result (λ file. file ≡ out_header ++ records_of (trial_packets n)) }
    ensures read { IfOk result (λ file. capture file
        ≡ record { frames = frames_of (trial_packets n); fault = None }) }
    ensures header { IfOk result (λ file. first_failing (header_rules file) ≡ None) }
{
    let mut file = Octets::new(alloc);
    write_header(&mut file)?;
    for j in 0..n {
        push_packet(alloc, prefix_addr(7 * j % n) + 1, j, &mut file)?;
    }
    push_packet(alloc, ELSEWHERE, n, &mut file)?;
    // The call brings the law from which the clauses on reading follow.
    what_is_written_is_read();
    Ok(file)
}

// Appends the record of a packet to an address, `j` microseconds behind the capture's first moment.
fn push_packet(alloc: Global, dest: u32, j: u32, file: &mut Octets) -> Result<(), NoMemory>
    requires { j ≤ most_mappings }
    ensures { OnOk result (file.new ≡ file.old
        ++ packet_record (packet_to dest j).moment (packet_to dest j).octets) }
{
    let datagram = datagram_to(alloc, dest)?;
    write_packet(BEGIN + u64::from(j) * 1000, datagram.as_slice(), file)
}

fn datagram_to(alloc: Global, dest: u32) -> Result<Octets, NoMemory>
    ensures octets { IfOk result (λ datagram. datagram ≡ datagram_to dest) }
    ensures size { IfOk result (λ datagram. length datagram ≡ 28) }
{
    let header = V4Header {
        source: SOURCE,
        dest,
        tos: 0,
        total: 28,
        id: 0,
        dont_fragment: false,
        more: false,
        offset: 0,
        ttl: 64,
        protocol: 17,
        header_len: 20,
    };
    let mut datagram = Octets::new(alloc);
    write_v4(&header, &mut datagram)?;
    write_udp(
        Addr::V4(SOURCE),
        Addr::V4(dest),
        1000,
        2000,
        &[],
        false,
        &mut datagram,
    )?;
    Ok(datagram)
}
