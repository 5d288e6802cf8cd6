// The work of a round, whose lines and packets are gathered to go out.
ghost use Rattle.std.specs.Prelude.{◌≡◌, ◌<◌, ◌≤◌, ◌+◌, ◌++◌, ◌^◌, [], length, map, All, OnOk};
ghost use Rattle.command_words.specs.Limits.{most_workers};
ghost use Rattle.capture_events.specs.Events.{records_of};
ghost use Rattle.playback.specs.Playing.{GathersOne};
ghost use Rattle.router_model.specs.Rounds.{lines_text};
ghost use Rattle.forwarders.specs.Gathering.{IsWritable};
ghost use Rattle.forwarders.specs.Rounding.{line_seen, packet_seen};
ghost use Rattle.sharing.specs.Gathering.{ClosesRound, MayPlay, WorksRound, state_of};

use crate::crew::Crew;
use crate::gathering::Gathering;
use forwarders::{Gate, Line, Packet, Round, closing_moment, run_round};
use octets::{NoMemory, Octets};
use playback::{Output, Progress};
use router_log::push_frame_line;
use std::sync::Wait;
use std::thread::Threads;

/// Works the round of the gathered frames, of which there is at least one, and gathers its lines
/// and packets. The call starts threads, and waits for them.
pub(crate) fn work_round<R: Threads + Wait + Sync, G: Gate>(
    crew: &Crew<'_, R, G>,
    router: &mut Gathering<'_>,
    progress: Progress,
    output: &mut Output,
) -> Result<(), NoMemory>
    requires workers { crew.now.workers ≤ most_workers }
    requires some { 1 ≤ length router.old.frames.items }
    requires ready { MayPlay router.old progress output.old.written }
    ensures gathers { OnOk result (GathersOne
        (WorksRound (state_of router.old) router.old.frames.items)
        output.old output.new (state_of router.new)) }
    ensures ready { OnOk result (MayPlay router.new progress output.new.written) }
    ensures none { OnOk result (router.new.frames.items ≡ []) }
{
    let alloc = *router.frames.allocator();
    let round = Round {
        rt: crew.rt,
        gate: crew.gate,
        workers: crew.workers,
        alloc,
        settings: router.settings,
        previous: router.previous,
        frames: router.frames.as_slice(),
    };
    let done = run_round(&round, &mut router.table, &mut router.published)?;
    router.previous = Some(closing_moment(router.frames.as_slice()));
    router.frames.clear();
    router.octets = 0;
    push_lines(done.lines.as_slice(), &mut output.lines)?;
    push_packets(done.written.as_slice(), output)
}

/// Works the round of the frames that are left at the end of a capture, if there are some.
pub(crate) fn work_last<R: Threads + Wait + Sync, G: Gate>(
    crew: &Crew<'_, R, G>,
    router: &mut Gathering<'_>,
    progress: Progress,
    output: &mut Output,
) -> Result<(), NoMemory>
    requires workers { crew.now.workers ≤ most_workers }
    requires ready { MayPlay router.old progress output.old.written }
    ensures gathers { OnOk result (GathersOne
        (ClosesRound router.old.frames.items (state_of router.old))
        output.old output.new (state_of router.new)) }
{
    if router.frames.is_empty() {
        return Ok(());
    }
    work_round(crew, router, progress, output)
}

// Gathers the lines of a round.
fn push_lines(lines: &[Line], out: &mut Octets) -> Result<(), NoMemory>
    ensures { OnOk result (out.new ≡ out.old ++ lines_text (map line_seen lines.now)) }
{
    for line in lines {
        push_frame_line(line.number, line.moment, line.n, &line.verdict, out)?;
    }
    Ok(())
}

// Gathers the packets of a round.
fn push_packets(packets: &[Packet], output: &mut Output) -> Result<(), NoMemory>
    requires writable { All IsWritable packets.now }
    requires room { output.old.written + length packets.now < 2 ^ 50 }
    ensures lines { OnOk result (output.new.lines ≡ output.old.lines) }
    ensures records { OnOk result (output.new.records
        ≡ output.old.records ++ records_of (map packet_seen packets.now)) }
    ensures written { OnOk result (output.new.written ≡ output.old.written + length packets.now) }
{
    for packet in packets {
        output.push_packet(packet.moment, packet.octets.as_slice())?;
    }
    Ok(())
}
