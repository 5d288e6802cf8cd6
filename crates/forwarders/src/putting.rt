// Lines and packets of a round, put together.
ghost use Rattle.std.specs.Prelude.{◌≡◌, ◌+◌, ◌≤◌, ◌++◌, ◌∷◌, [], List, length, OnOk};
ghost use Rattle.forwarders.specs.Gathering.{Puts, left_in, left_of, line_ruled, lines_in, packets_in, sent_of};

use crate::gathering::Gathered;
use crate::round_done::{Line, Packet, Packets, RoundDone};
use crate::ruling::Ruled;
use octets::{NoMemory, Octets};
use router_log::{Decision, Verdict};
use std::alloc::Global;
use std::collections::VecDeque;

// Adds a copy of a packet, at a moment.
fn push_copy(
    alloc: Global,
    moment: u64,
    octets: &[u8],
    packets: &mut Packets,
) -> Result<(), NoMemory>
    ensures { OnOk result (packets.new
        ≡ packets.old ++ record { moment = moment; octets = octets.now } ∷ []) }
{
    let octets = Octets::copied(alloc, octets)?;
    packets.push(Packet { moment, octets })
}

// Adds a copy of the packet that a verdict sends, if it sends one.
fn push_sent(
    alloc: Global,
    moment: u64,
    verdict: &Verdict,
    packets: &mut Packets,
) -> Result<(), NoMemory>
    ensures { OnOk result (packets.new ≡ packets.old ++ sent_of moment verdict.now) }
{
    match verdict {
        Verdict::Encapsulated { packet, .. }
        | Verdict::Delivered { packet, .. }
        | Verdict::Native { packet } => push_copy(alloc, moment, packet.as_slice(), packets),
        Verdict::Own | Verdict::Local | Verdict::Control(_) | Verdict::Drop(_) => Ok(()),
    }
}

// Adds the line of a data packet, and a copy of the packet that is sent for it.
fn put_ruled(
    alloc: Global,
    number: u32,
    moment: u64,
    ruled: Ruled,
    done: &mut RoundDone,
) -> Result<(), NoMemory>
    ensures lines { OnOk result (done.new.lines
        ≡ done.old.lines ++ line_ruled number moment ruled ∷ []) }
    ensures packets { OnOk result (done.new.written
        ≡ done.old.written ++ sent_of moment ruled.decision.verdict) }
{
    let Ruled { n, decision, look } = ruled;
    let Decision {
        verdict,
        notices: _,
    } = decision;
    push_sent(alloc, moment, &verdict, &mut done.written)?;
    done.lines.push(Line {
        number,
        moment,
        n,
        verdict,
        look,
    })
}

// Adds a gathered item, or for a data packet the line and the packet of the first ruling, which is
// used up.
fn put(
    alloc: Global,
    gathered: Gathered,
    ruled: &mut VecDeque<Ruled>,
    done: &mut RoundDone,
) -> Result<(), NoMemory>
    requires { left_of gathered ≤ length ruled.old.items }
    ensures puts { OnOk result
        (Puts gathered ruled.old.items done.old ruled.new.items done.new) }
    ensures left { OnOk result
        (left_of gathered + length ruled.new.items ≡ length ruled.old.items) }
{
    match gathered {
        Gathered::Packet(packet) => done.written.push(packet),
        Gathered::Message(line) => done.lines.push(line),
        Gathered::Left { number, moment } => match ruled.pop_front() {
            Some(one) => put_ruled(alloc, number, moment, one, done),
            None => unreachable!(),
        },
    }
}

/// Adds the gathered items, in order, with the lines and packets of the rulings in the places of
/// the data packets, of which each has one.
pub(crate) fn put_together(
    alloc: Global,
    items: &mut VecDeque<Gathered>,
    ruled: &mut VecDeque<Ruled>,
    done: &mut RoundDone,
) -> Result<(), NoMemory>
    requires { left_in items.old.items ≡ length ruled.old.items }
    ensures lines { OnOk result (done.new.lines
        ≡ done.old.lines ++ lines_in items.old.items ruled.old.items) }
    ensures packets { OnOk result (done.new.written
        ≡ done.old.written ++ packets_in items.old.items ruled.old.items) }
{
    while let Some(gathered) = items.pop_front() {
        put(alloc, gathered, ruled, done)?;
    }
    Ok(())
}
