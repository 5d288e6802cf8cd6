// The notices of a round's data packets, noted after all else.
ghost use Rattle.std.specs.Prelude.{◌≡◌, ◌+◌, ◌*◌, ◌^◌, ◌<◌, ◌≤◌, ◌∷◌, ◌++◌, [], true, length, map, OnOk};
ghost use Rattle.std.specs.List.{list_all};
ghost use Rattle.lisp_settings.specs.Lawful.{IsLawful};
ghost use Rattle.router_core.specs.Steps.{MayStep};
ghost use Rattle.router_model.specs.Journal.{extended};
ghost use Rattle.router_model.specs.Lifting.{is_sound};
ghost use Rattle.router_model.specs.Parts.{standing_in};
ghost use Rattle.router_model.specs.Proper.{IsProper};
ghost use Rattle.router_model.specs.Rounds.{closing_moment};
ghost use Rattle.router_model.specs.Sides.{notices_of};
ghost use Rattle.forwarders.specs.Batches.{journal_of};
ghost use Rattle.forwarders.specs.Finishing.{MayNote, noted_of, with_published};
ghost use Rattle.forwarders.specs.Gathering.{Notes};
ghost use Rattle.forwarders.specs.Rounding.{IsAtRest};
ghost use Rattle.forwarders.specs.Ruling.{ruling_of};

use crate::batches::publish_all;
use crate::door::Published;
use crate::gathering::Gathered;
use crate::round_begun::Round;
use crate::ruling::Ruled;
use crate::sending::push_emits;
use crate::writing::keep_batch;
use lisp_settings::Settings;
use octets::{Items, NoMemory};
use router_core::{Changed, Table};
use router_log::{Entries, Entry, Notice, Notices};
use std::alloc::Global;
use std::collections::VecDeque;
use std::sync::Wait;

// The close of a round: the settings, and the moment in nanoseconds at which notices are noted.
#[derive(Drop)]
struct Closing<'a> {
    settings: &'a Settings,
    moment: u64,
}

// Notes a notice of a data packet, with the name under which the mapping in force was found: adds its
// entries, and gathers its packets.
fn note_one(
    closing: &Closing<'_>,
    table: &mut Table,
    notice: &Notice,
    found: Option<u32>,
    entries: &mut Vec<Entry>,
    items: &mut VecDeque<Gathered>,
) -> Result<(), NoMemory>
    requires lawful { IsLawful closing.now.settings.now }
    requires sound { is_sound notice.now ≡ true }
    requires may { MayStep closing.now.moment table.old.parts }
    requires moment { closing.now.moment < 2 ^ 32 * 1000000000 }
    ensures { OnOk result (Notes (standing_in closing.now.settings.now table.old.parts)
        closing.now.moment (notice.now ∷ []) table.old.parts
        entries.old.items items.old.items table.new.parts entries.new.items items.new.items) }
{
    let Changed {
        entries: more,
        emits,
    } = table.note_found(closing.settings, closing.moment, notice, found)?;
    let own = table.own();
    let mut more = more.into_vec();
    entries.append(&mut more)?;
    push_emits(
        closing.settings,
        &own,
        closing.moment,
        emits.as_slice(),
        items,
    )
}

// Notes the notices of a data packet one after another: adds their entries, and gathers their
// packets.
fn note_each(
    closing: &Closing<'_>,
    table: &mut Table,
    notices: &Notices,
    entries: &mut Vec<Entry>,
    items: &mut VecDeque<Gathered>,
) -> Result<(), NoMemory>
    requires lawful { IsLawful closing.now.settings.now }
    requires sound { list_all is_sound notices.now ≡ true }
    requires later { table.old.parts.now ≤ closing.now.moment }
    requires count { table.old.parts.count + length notices.now < 2 ^ 61 }
    requires moment { closing.now.moment < 2 ^ 32 * 1000000000 }
    ensures { OnOk result (Notes (standing_in closing.now.settings.now table.old.parts)
        closing.now.moment notices.now table.old.parts
        entries.old.items items.old.items table.new.parts entries.new.items items.new.items) }
{
    let found = notices.found();
    for notice in notices.as_slice() {
        note_one(closing, table, notice, found, entries, items)?;
    }
    Ok(())
}

// Notes the notices of all data packets, in order: adds their entries, and gathers their packets.
fn note_all(
    closing: &Closing<'_>,
    table: &mut Table,
    ruled: &[Ruled],
    entries: &mut Vec<Entry>,
    items: &mut VecDeque<Gathered>,
) -> Result<(), NoMemory>
    requires lawful { IsLawful closing.now.settings.now }
    requires may { MayNote closing.now.moment table.old.parts ruled.now }
    ensures { OnOk result (Notes (standing_in closing.now.settings.now table.old.parts)
        closing.now.moment (notices_of (map ruling_of ruled.now)) table.old.parts
        entries.old.items items.old.items table.new.parts entries.new.items items.new.items) }
{
    for one in ruled {
        note_each(closing, table, &one.decision.notices, entries, items)?;
    }
    Ok(())
}

// Plans entries as one batch, and publishes them, if there are any.
fn publish_more<R: Wait>(
    rt: &R,
    alloc: Global,
    published: &mut Published,
    entries: Entries,
) -> Result<(), NoMemory>
    requires rest { IsAtRest published.old.settings published.old }
    requires proper { IsProper published.old.settings
        (extended (journal_of published.old.batches) entries) }
    ensures { OnOk result (published.new ≡ with_published published.old entries) }
{
    let mut batches = Items::new(alloc);
    keep_batch(&mut batches, entries)?;
    published.plan(batches.as_slice());
    publish_all(rt, published, batches.as_slice())
}

/// Notes the notices of a round's data packets once it closes: gathers their packets, and publishes
/// their entries as one batch.
pub(crate) fn note_round<R: Wait, G>(
    round: &Round<'_, R, G>,
    table: &mut Table,
    published: &mut Published,
    ruled: &[Ruled],
    items: &mut VecDeque<Gathered>,
) -> Result<(), NoMemory>
    requires lawful { IsLawful round.now.settings.now }
    requires some { 1 ≤ length round.now.frames.now }
    requires may { MayNote (closing_moment round.now.frames.now) table.old.parts ruled.now }
    requires rest { IsAtRest round.now.settings.now published.old }
    requires proper { IsProper round.now.settings.now (extended (journal_of published.old.batches)
        (noted_of round.now.settings.now (closing_moment round.now.frames.now) table.old.parts ruled.now).entries) }
    ensures notes { OnOk result (Notes (standing_in round.now.settings.now table.old.parts)
        (closing_moment round.now.frames.now) (notices_of (map ruling_of ruled.now)) table.old.parts [] items.old.items
        table.new.parts
        (noted_of round.now.settings.now (closing_moment round.now.frames.now) table.old.parts ruled.now).entries
        items.new.items) }
    ensures published { OnOk result (published.new ≡ with_published published.old
        (noted_of round.now.settings.now (closing_moment round.now.frames.now) table.old.parts ruled.now).entries) }
{
    let closing = Closing {
        settings: round.settings,
        moment: round.closes(),
    };
    let mut entries = Vec::new(round.alloc);
    note_all(&closing, table, ruled, &mut entries, items)?;
    publish_more(round.rt, round.alloc, published, Items::from_vec(entries))
}
