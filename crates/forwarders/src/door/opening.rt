// The beginning of a publication.
ghost use Rattle.std.specs.Prelude.{◌≡◌, ◌<◌, ◌≤◌, false, [], ◌∷◌, drop, IfOk};
ghost use Rattle.command_words.specs.Limits.{most_workers};
ghost use Rattle.left_right.specs.Sides.{view as known};
ghost use Rattle.router_model.specs.Journal.{statics};
ghost use Rattle.router_model.specs.Parts.{Stands};
ghost use Rattle.forwarders.specs.declared.door.change.Change.TheVariants.{Opens};
ghost use Rattle.forwarders.specs.declared.door.view.View.TheVariants.{Newcomer};
ghost use Rattle.forwarders.specs.Batches.{batches_from};
ghost use Rattle.forwarders.specs.Publication.{Side};
ghost use Rattle.forwarders.specs.Views.{beginning, publication_of};

use super::change::Change;
use super::keeping::{Beginning, First, ShownWriter};
use super::published::Published;
use super::shown::Shown;
use lisp_settings::Settings;
use octets::NoMemory;
use router_core::Table;
use std::alloc::Global;
use std::marker::Brand;
use std::sync::Wait;

// Publishes for the first time, after which the writer has the view of `F`.
fn opened_as<F: First, R: Wait>(
    rt: &R,
    alloc: Global,
    settings: &Settings,
    writer: ShownWriter,
) -> Result<Published, NoMemory>
    requires first { F.known ≡ beginning settings.now (batches_from settings.now []) }
    requires new { known writer.desk.place ≡ Newcomer }
    requires opens { drop writer.behind writer.log.items ≡ Opens ∷ [] }
    requires closed { writer.desk.shown.value.is_open ≡ false }
    requires stands { Stands settings.now writer.desk.shown.value.parts (statics settings.now) }
    ensures { IfOk result (λ published.
        published ≡ publication_of (beginning settings.now (batches_from settings.now [])) []) }
{
    let _settings = settings;
    let (writer, done) = writer.publish_as::<Beginning<F>, R>(rt);
    match done {
        Ok(()) => Ok(Published::over(alloc, writer)),
        Err(_) => {
            writer.take(rt);
            Err(NoMemory)
        }
    }
}

// Publishes for the first time, after which the static mappings are the writer's list and plan.
fn opened<R: Wait>(
    rt: &R,
    alloc: Global,
    settings: &Settings,
    writer: ShownWriter,
) -> Result<Published, NoMemory>
    requires new { known writer.desk.place ≡ Newcomer }
    requires opens { drop writer.behind writer.log.items ≡ Opens ∷ [] }
    requires closed { writer.desk.shown.value.is_open ≡ false }
    requires stands { Stands settings.now writer.desk.shown.value.parts (statics settings.now) }
    ensures { IfOk result (λ published.
        published ≡ publication_of (beginning settings.now (batches_from settings.now [])) []) }
{
    opened_as::<Brand, R>(rt, alloc, settings, writer)
}

// Two copies of a table, before their publication begins.
fn copies(table: &Table) -> Result<(Shown, Shown), NoMemory>
    ensures { IfOk result (λ both.
        let side : Side = record { parts = table.now.parts; is_open = false } in
        (both.0 ≡ side) × (both.1 ≡ side)) }
{
    let first = table.copy()?;
    match table.copy() {
        Ok(second) => Ok((Shown::new(first), Shown::new(second))),
        Err(_) => {
            drop(first);
            Err(NoMemory)
        }
    }
}

/// Publishes a table that has just begun, with its static mappings as the first batch, for at most
/// `readers` forwarders at a time. The call may wait, as `publish` does.
pub fn open_hall<R: Wait>(
    rt: &R,
    alloc: Global,
    settings: &Settings,
    table: &Table,
    readers: u32,
) -> Result<Published, NoMemory>
    requires readers { (1 ≤ readers) × (readers ≤ most_workers) }
    requires stands { Stands settings.now table.now.parts (statics settings.now) }
    ensures { IfOk result (λ published. published ≡ record {
      settings = settings.now;
      batches = batches_from settings.now [];
      plan = batches_from settings.now [];
      pending = [];
    }) }
{
    let (first, second) = copies(table)?;
    let mut writer = ShownWriter::new(alloc, first, second, readers as usize)?;
    match writer.append(Change::Opens) {
        Ok(()) => opened(rt, alloc, settings, writer),
        Err(_) => {
            writer.take(rt);
            Err(NoMemory)
        }
    }
}
