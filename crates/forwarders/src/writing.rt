// The writer's side of a round: it plays seconds and hears control messages in order, and leaves
// data packets for later.
ghost use Rattle.std.specs.Prelude.{◌≡◌, ◌+◌, ◌*◌, ◌^◌, ◌<◌, ◌≤◌, List, [], ◌∷◌, ◌++◌, length, slice_index_or, unwrap_or, true, All, IfOk, OnOk, Option, Some};
ghost use Rattle.command_words.specs.Limits.{most_round_frames};
ghost use Rattle.capture_io.specs.Frame.{Frame as FrameValue};
ghost use Rattle.lisp_settings.specs.Lawful.{IsLawful};
ghost use Rattle.capture_events.specs.Events.{Arrival, Tick, events_after, second_of, ticks};
ghost use Rattle.router_log.specs.Moments.{seconds};
ghost use Rattle.router_core.specs.Seen.{course_seen};
ghost use Rattle.router_core.specs.Steps.{HasTicked, MayStep};
ghost use Rattle.router_model.specs.Course.{course_of, control};
ghost use Rattle.router_model.specs.Lifting.{FramesInOrder};
ghost use Rattle.router_model.specs.Limits.{most_ticked};
ghost use Rattle.router_model.specs.Rounds.{closing_moment};
ghost use Rattle.router_model.specs.Sharing.{filled};
ghost use Rattle.router_model.specs.Standing.{without_ups};
ghost use Rattle.forwarders.specs.Gathering.{IsWritten, Writes, round_writing};
ghost use Rattle.forwarders.specs.Rounding.{begun_at};

use crate::gathering::{Gathered, Written};
use crate::round_done::Line;
use crate::sending::push_emits;
use capture_events::seconds_between;
use capture_io::Frame;
use lisp_settings::Settings;
use octets::{Items, NoMemory};
use router_core::{Changed, Course, Heard, Table, course_of};
use router_log::Entries;

/// Adds a batch, if it has entries.
pub(crate) fn keep_batch(batches: &mut Items<Entries>, entries: Entries) -> Result<(), NoMemory>
    ensures { OnOk result (batches.new ≡ batches.old ++ filled (entries ∷ [])) }
{
    if entries.len() == 0 {
        return Ok(());
    }
    batches.push(entries)
}

// Plays a second: gathers its packets, and keeps its entries as a batch.
fn write_second(
    settings: &Settings,
    table: &mut Table,
    second: u32,
    written: &mut Written,
) -> Result<(), NoMemory>
    requires lawful { IsLawful settings.now }
    requires own { without_ups table.old.parts.own ≡ without_ups settings.now.locators }
    requires may { MayStep (seconds second) table.old.parts }
    ensures writes { OnOk result ((frames : List FrameValue) → Writes settings.now frames
        (Tick second ∷ []) table.old.parts written.old table.new.parts written.new) }
    ensures now { OnOk result (table.new.parts.now ≤ seconds second) }
{
    let Changed { entries, emits } = table.tick(settings, second)?;
    let own = table.own();
    let moment = u64::from(second) * 1_000_000_000;
    push_emits(settings, &own, moment, emits.as_slice(), &mut written.items)?;
    keep_batch(&mut written.batches, entries)
}

// Plays the seconds that begin after one moment, up to another one and with it; none before the
// first frame.
fn write_seconds(
    settings: &Settings,
    table: &mut Table,
    previous: Option<u64>,
    moment: u64,
    written: &mut Written,
) -> Result<(), NoMemory>
    requires lawful { IsLawful settings.now }
    requires own { without_ups table.old.parts.own ≡ without_ups settings.now.locators }
    requires later { table.old.parts.now ≤ unwrap_or previous moment }
    requires order { unwrap_or previous moment ≤ moment }
    requires moment { moment < 2 ^ 32 * 1000000000 }
    requires count { table.old.parts.count + most_ticked * second_of moment < 2 ^ 61 }
    ensures writes { OnOk result ((frames : List FrameValue) → Writes settings.now frames
        (ticks previous moment) table.old.parts written.old table.new.parts written.new) }
    ensures now { OnOk result (table.new.parts.now ≤ moment) }
{
    for second in seconds_between(previous, moment) {
        write_second(settings, table, second, written)?;
    }
    Ok(())
}

// Takes a frame: hears a control message, leaves a data packet for later.
fn write_frame(
    settings: &Settings,
    table: &mut Table,
    place: usize,
    frame: &Frame,
    written: &mut Written,
) -> Result<(), NoMemory>
    requires lawful { IsLawful settings.now }
    requires may { MayStep frame.now.moment table.old.parts }
    requires moment { frame.now.moment < 2 ^ 32 * 1000000000 }
    ensures writes { OnOk result ((frames : List FrameValue) → place < length frames
        → ((d : FrameValue) → slice_index_or frames place d ≡ frame.now)
        → Writes settings.now frames (Arrival frame.now ∷ [])
        table.old.parts written.old table.new.parts written.new) }
    ensures now { OnOk result (table.new.parts.now ≤ frame.now.moment) }
{
    let course = course_of(settings, frame);
    if course.is_message() {
        write_message(settings, table, frame, &course, written)
    } else {
        leave(place, frame, written)
    }
}

// Hears a control message: gathers its line and its packets, and keeps its entries as a batch.
fn write_message(
    settings: &Settings,
    table: &mut Table,
    frame: &Frame,
    course: &Course<'_>,
    written: &mut Written,
) -> Result<(), NoMemory>
    requires lawful { IsLawful settings.now }
    requires may { MayStep frame.now.moment table.old.parts }
    requires moment { frame.now.moment < 2 ^ 32 * 1000000000 }
    requires course { course_seen course.now ≡ course_of settings.now frame.now }
    requires message { control settings.now frame.now ≡ true }
    ensures writes { OnOk result ((frames : List FrameValue) → Writes settings.now frames
        (Arrival frame.now ∷ []) table.old.parts written.old table.new.parts written.new) }
    ensures now { OnOk result (table.new.parts.now ≤ frame.now.moment) }
{
    let n = table.count();
    let Heard {
        verdict,
        entries,
        emits,
    } = table.hear_course(settings, frame.moment, course)?;
    let own = table.own();
    written.items.push_back(Gathered::Message(Line {
        number: frame.number,
        moment: frame.moment,
        n,
        verdict,
        look: None,
    }))?;
    push_emits(
        settings,
        &own,
        frame.moment,
        emits.as_slice(),
        &mut written.items,
    )?;
    keep_batch(&mut written.batches, entries)
}

// Leaves a data packet for later.
fn leave(place: usize, frame: &Frame, written: &mut Written) -> Result<(), NoMemory>
    ensures items { OnOk result (written.new.items.items
        ≡ written.old.items.items ++ Gathered.Left frame.now.number frame.now.moment ∷ []) }
    ensures batches { OnOk result (written.new.batches ≡ written.old.batches) }
    ensures places { OnOk result (written.new.places ≡ written.old.places ++ place ∷ []) }
{
    written.items.push_back(Gathered::Left {
        number: frame.number,
        moment: frame.moment,
    })?;
    written.places.push(place)
}

// Takes frames in order, each behind the seconds after the frame before it, from a moment on.
fn write_frames(
    settings: &Settings,
    table: &mut Table,
    from: u64,
    frames: &[Frame],
    written: &mut Written,
) -> Result<(), NoMemory>
    requires lawful { IsLawful settings.now }
    requires own { without_ups table.old.parts.own ≡ without_ups settings.now.locators }
    requires later { table.old.parts.now ≤ from }
    requires from { from < 2 ^ 32 * 1000000000 }
    requires number { length frames.now ≤ most_round_frames }
    requires order { FramesInOrder from frames.now }
    requires moments { All (λ frame. frame.moment < 2 ^ 32 * 1000000000) frames.now }
    requires count { table.old.parts.count < 2 ^ 60 + most_ticked * 2 ^ 32 }
    ensures writes { OnOk result (Writes settings.now frames.now
        (events_after (Some from) frames.now) table.old.parts written.old table.new.parts written.new) }
    ensures now { OnOk result (1 ≤ length frames.now
        → table.new.parts.now ≤ closing_moment frames.now) }
{
    let mut last = from;
    for (place, frame) in frames.iter().enumerate() {
        write_seconds(settings, table, Some(last), frame.moment, written)?;
        write_frame(settings, table, place, frame, written)?;
        last = frame.moment;
    }
    Ok(())
}

/// Plays the seconds and hears the control messages of a round of which no item was gathered yet.
/// Returns how many of the batches are those of the seconds before the first frame.
pub(crate) fn write_round(
    settings: &Settings,
    table: &mut Table,
    previous: Option<u64>,
    frames: &[Frame],
    written: &mut Written,
) -> Result<usize, NoMemory>
    requires lawful { IsLawful settings.now }
    requires own { without_ups table.old.parts.own ≡ without_ups settings.now.locators }
    requires later { table.old.parts.now ≤ begun_at previous frames.now }
    requires number { (1 ≤ length frames.now) × (length frames.now ≤ most_round_frames) }
    requires order { FramesInOrder (begun_at previous frames.now) frames.now }
    requires moments { All (λ frame. frame.moment < 2 ^ 32 * 1000000000) frames.now }
    requires count { table.old.parts.count < 2 ^ 60 }
    requires none { (written.old.items.items ≡ []) × (written.old.batches ≡ [])
        × (written.old.places ≡ []) }
    ensures written { IfOk result (λ from.
        IsWritten settings.now previous frames.now table.old.parts from written.new) }
    ensures table { OnOk result (table.new.parts
        ≡ (round_writing settings.now previous frames.now table.old.parts).after) }
    ensures entered { OnOk result (HasTicked
        (most_ticked * length (events_after previous frames.now)) (closing_moment frames.now)
        table.old.parts table.new.parts) }
{
    let first = &frames[0];
    write_seconds(settings, table, previous, first.moment, written)?;
    let from = written.batches.len();
    write_frames(settings, table, first.moment, frames, written)?;
    Ok(from)
}
