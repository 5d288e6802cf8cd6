// The events of a capture, seconds and frames, taken by the plain router.
ghost use Rattle.std.specs.Prelude.{◌≡◌, ◌<◌, ◌≤◌, ◌+◌, ◌*◌, ◌^◌, ◌∷◌, [], true, length, All, None, OnOk};
ghost use Rattle.std.specs.List.{list_all};
ghost use Rattle.capture_io.specs.Limits.{most_frame_octets};
ghost use Rattle.lisp_settings.specs.Lawful.{IsLawful};
ghost use Rattle.capture_events.specs.Events.{Arrival, Tick};
ghost use Rattle.router_core.specs.Seen.{course_seen, IfLeaving};
ghost use Rattle.router_core.specs.Sendable.{IsSendable};
ghost use Rattle.router_core.specs.Steps.{HasEntered, HasTicked, MayStep};
ghost use Rattle.router_log.specs.Moments.{seconds};
ghost use Rattle.router_model.specs.Changes.{unchanged};
ghost use Rattle.router_model.specs.Decide.{decide_course};
ghost use Rattle.router_model.specs.Hear.{course_heard};
ghost use Rattle.router_model.specs.Lifting.{is_sound};
ghost use Rattle.router_model.specs.Limits.{most_heard, most_notices, most_ticked};
ghost use Rattle.router_model.specs.Parts.{standing_in, table, view_in};
ghost use Rattle.router_model.specs.Plain.{after_decision, after_event, after_message, emit_packets, packet_of, packets_of, FitsRecord};
ghost use Rattle.router_model.specs.Standing.{standing_by};
ghost use Rattle.replay.specs.Taking.{all_noted, router_of, GathersFew, Sends};

use capture_io::Frame;
use lisp_settings::Settings;
use octets::{NoMemory, Octets};
use playback::Output;
use router_core::{Course, Decision, Own, Table, course_of, emit_octets};
use router_log::{Emits, Notice, Verdict, push_frame_line};

/// Plays a second on the table, and gathers the packets that are sent at it.
pub(crate) fn take_second(
    settings: &Settings,
    memory: &mut Table,
    second: u32,
    output: &mut Output,
) -> Result<(), NoMemory>
    requires lawful { IsLawful settings.now }
    requires own { (standing_in settings.now memory.old.parts).locators ≡ memory.old.parts.own }
    requires may { MayStep (seconds second) memory.old.parts }
    requires room { output.old.written < 2 ^ 48 }
    ensures gathers { OnOk result (GathersFew
        (after_event table (router_of settings.now memory.old.parts) (Tick second))
        output.old output.new) }
    ensures state { OnOk result (router_of settings.now memory.new.parts
        ≡ (after_event table (router_of settings.now memory.old.parts) (Tick second)).after) }
    ensures entered { OnOk result
        (HasTicked most_ticked (seconds second) memory.old.parts memory.new.parts) }
{
    let changed = memory.tick(settings, second)?;
    let own = memory.own();
    let moment = u64::from(second) * 1_000_000_000;
    push_emits(settings, &own, moment, changed.emits, output)
}

/// Takes a frame: hears a control message or decides any other frame, and gathers its line and the
/// packets that are sent for it.
pub(crate) fn take_frame(
    settings: &Settings,
    memory: &mut Table,
    frame: &Frame,
    output: &mut Output,
) -> Result<(), NoMemory>
    requires lawful { IsLawful settings.now }
    requires later { memory.old.parts.now ≤ frame.now.moment }
    requires count { memory.old.parts.count < 2 ^ 60 }
    requires moment { frame.now.moment < 2 ^ 32 * 1000000000 }
    requires room { output.old.written < 2 ^ 48 }
    ensures gathers { OnOk result (GathersFew
        (after_event table (router_of settings.now memory.old.parts) (Arrival frame.now))
        output.old output.new) }
    ensures state { OnOk result (router_of settings.now memory.new.parts
        ≡ (after_event table (router_of settings.now memory.old.parts) (Arrival frame.now)).after) }
    ensures entered { OnOk result
        (HasEntered most_heard frame.now.moment memory.old.parts memory.new.parts) }
{
    let course = course_of(settings, frame);
    if course.is_message() {
        hear(settings, memory, frame, &course, output)
    } else {
        decide(settings, memory, frame, &course, output)
    }
}

// Hears a control message, and gathers its line and the packets that are sent for it.
fn hear(
    settings: &Settings,
    memory: &mut Table,
    frame: &Frame,
    course: &Course<'_>,
    output: &mut Output,
) -> Result<(), NoMemory>
    requires lawful { IsLawful settings.now }
    requires may { MayStep frame.now.moment memory.old.parts }
    requires moment { frame.now.moment < 2 ^ 32 * 1000000000 }
    requires room { output.old.written < 2 ^ 48 }
    ensures gathers { OnOk result (GathersFew
        (after_message table (router_of settings.now memory.old.parts) frame.now
        (course_heard table (standing_in settings.now memory.old.parts) frame.now.moment
        (course_seen course.now) (unchanged memory.old.parts))) output.old output.new) }
    ensures state { OnOk result (memory.new.parts
        ≡ (course_heard table (standing_in settings.now memory.old.parts) frame.now.moment
        (course_seen course.now) (unchanged memory.old.parts)).change.after) }
    ensures entered { OnOk result
        (HasEntered most_heard frame.now.moment memory.old.parts memory.new.parts) }
{
    let entries = memory.count();
    let heard = memory.hear_course(settings, frame.moment, course)?;
    let own = memory.own();
    push_frame_line(
        frame.number,
        frame.moment,
        entries,
        &heard.verdict,
        &mut output.lines,
    )?;
    push_emits(settings, &own, frame.moment, heard.emits, output)
}

// Decides a frame that is no control message, and notes its notices. Gathers its line, its packet
// and the packets of the notices.
fn decide(
    settings: &Settings,
    memory: &mut Table,
    frame: &Frame,
    course: &Course<'_>,
    output: &mut Output,
) -> Result<(), NoMemory>
    requires lawful { IsLawful settings.now }
    requires instance { IfLeaving course.now (λ iid. iid < 2 ^ 24) }
    requires later { memory.old.parts.now ≤ frame.now.moment }
    requires count { memory.old.parts.count < 2 ^ 60 }
    requires moment { frame.now.moment < 2 ^ 32 * 1000000000 }
    requires room { output.old.written < 2 ^ 48 }
    ensures gathers { OnOk result (GathersFew
        (after_decision table (router_of settings.now memory.old.parts) frame.now
        (decide_course (standing_in settings.now memory.old.parts)
        (view_in memory.old.parts frame.now.moment) (course_seen course.now))) output.old output.new) }
    ensures state { OnOk result (router_of settings.now memory.new.parts
        ≡ (after_decision table (router_of settings.now memory.old.parts) frame.now
        (decide_course (standing_in settings.now memory.old.parts)
        (view_in memory.old.parts frame.now.moment) (course_seen course.now))).after) }
    ensures entered { OnOk result
        (HasEntered most_notices frame.now.moment memory.old.parts memory.new.parts) }
{
    let entries = memory.count();
    let Decision { verdict, notices } = memory.decide_course(settings, frame.moment, course)?;
    push_frame_line(
        frame.number,
        frame.moment,
        entries,
        &verdict,
        &mut output.lines,
    )?;
    push_sent(verdict, frame.moment, output)?;
    let found = notices.found();
    note_all(
        settings,
        memory,
        frame.moment,
        notices.as_slice(),
        found,
        output,
    )
}

// Gathers the packet that a verdict sends.
fn push_sent(verdict: Verdict, moment: u64, output: &mut Output) -> Result<(), NoMemory>
    requires size { FitsRecord verdict }
    requires moment { moment < 2 ^ 32 * 1000000000 }
    requires room { output.old.written < 2 ^ 49 }
    ensures { OnOk result (Sends (packets_of moment (packet_of verdict)) output.old output.new) }
{
    match sent_packet(verdict) {
        Some(packet) => gather_packet(moment, packet.as_slice(), output),
        None => Ok(()),
    }
}

// The packet that a verdict sends, if it sends one.
fn sent_packet(verdict: Verdict) -> Option<Octets>
    ensures { result ≡ packet_of verdict }
{
    match verdict {
        Verdict::Encapsulated { packet, .. }
        | Verdict::Delivered { packet, .. }
        | Verdict::Native { packet } => Some(packet),
        Verdict::Own | Verdict::Local | Verdict::Control(_) | Verdict::Drop(_) => None,
    }
}

// Notes the notices of a decision one after another, with the name under which the mapping in force
// was found, and gathers the packets that are sent.
fn note_all(
    settings: &Settings,
    memory: &mut Table,
    moment: u64,
    notices: &[Notice],
    found: Option<u32>,
    output: &mut Output,
) -> Result<(), NoMemory>
    requires lawful { IsLawful settings.now }
    requires sound { list_all is_sound notices.now ≡ true }
    requires later { memory.old.parts.now ≤ moment }
    requires count { memory.old.parts.count + length notices.now ≤ 2 ^ 61 }
    requires moment { moment < 2 ^ 32 * 1000000000 }
    requires room { output.old.written + length notices.now < 2 ^ 50 }
    ensures sends { OnOk result (Sends (emit_packets (standing_in settings.now memory.new.parts) moment
        (all_noted settings.now memory.old.parts moment notices.now).emits) output.old output.new) }
    ensures state { OnOk result (memory.new.parts
        ≡ (all_noted settings.now memory.old.parts moment notices.now).after) }
    ensures few { OnOk result
        (length (all_noted settings.now memory.old.parts moment notices.now).emits
        ≤ length notices.now) }
    ensures entered { OnOk result
        (HasEntered (length notices.now) moment memory.old.parts memory.new.parts) }
{
    let [notice, others @ ..] = notices else {
        return Ok(());
    };
    let changed = memory.note_found(settings, moment, notice, found)?;
    let own = memory.own();
    push_emits(settings, &own, moment, changed.emits, output)?;
    note_all(settings, memory, moment, others, found, output)
}

// Gathers the packets of emits, by the own locators and versions as they stand.
fn push_emits(
    settings: &Settings,
    own: &Own,
    moment: u64,
    emits: Emits,
    output: &mut Output,
) -> Result<(), NoMemory>
    requires lawful { IsLawful settings.now }
    requires sendable { All (IsSendable (standing_by settings.now own.now)) emits }
    requires moment { moment < 2 ^ 32 * 1000000000 }
    requires room { output.old.written + length emits < 2 ^ 50 }
    ensures { OnOk result (Sends (emit_packets (standing_by settings.now own.now) moment emits)
        output.old output.new) }
{
    let items = emits.into_vec();
    let alloc = *items.allocator();
    for emit in items.as_slice() {
        let packet = emit_octets(alloc, settings, own, emit)?;
        gather_packet(moment, packet.as_slice(), output)?;
    }
    Ok(())
}

// Gathers a packet.
fn gather_packet(moment: u64, packet: &[u8], output: &mut Output) -> Result<(), NoMemory>
    requires size { length packet.now ≤ most_frame_octets }
    requires moment { moment < 2 ^ 32 * 1000000000 }
    requires room { output.old.written < 2 ^ 50 }
    ensures { OnOk result (Sends (record { moment = moment; octets = packet.now } ∷ [])
        output.old output.new) }
{
    output.push_packet(moment, packet)
}
