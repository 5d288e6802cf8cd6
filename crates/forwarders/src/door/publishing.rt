// The steps of the writer: it appends entries, publishes them, and makes the plan longer.
ghost use Rattle.std.specs.Prelude.{◌≡◌, [], ◌∷◌, ◌++◌, drop, OnOk, OnErr};
ghost use Rattle.left_right.specs.Sides.{view as known};
ghost use Rattle.forwarders.specs.Keeping.{GoesOn, IsNext, Publishes, Shows};
ghost use Rattle.forwarders.specs.Views.{IsWriting, entries_of, planning};

use super::change::Change;
use super::keeping::{Batch, Coming, Planning, Publishing, ShownWriter};
use octets::NoMemory;
use router_log::{Entries, Entry};
use std::alloc::AllocError;
use std::marker::Brand;
use std::sync::Wait;

/// Adds an entry behind the pending ones.
#[tactic(auto, using(crate::proofs::ChangeLemmas::entries_push))]
pub(super) fn appended(writer: &mut ShownWriter, entry: Entry) -> Result<(), NoMemory>
    ensures desk { writer.new.desk ≡ writer.old.desk }
    ensures ok { OnOk result (entries_of (drop writer.new.behind writer.new.log.items)
        ≡ entries_of (drop writer.old.behind writer.old.log.items) ++ entry ∷ []) }
    ensures err { OnErr result (entries_of (drop writer.new.behind writer.new.log.items)
        ≡ entries_of (drop writer.old.behind writer.old.log.items)) }
{
    match writer.append(Change::Adds(entry)) {
        Ok(()) => Ok(()),
        Err(_) => Err(NoMemory),
    }
}

// Publishes the pending entries, as the batch that `B` has.
fn published_as<B: Batch, R: Wait>(
    rt: &R,
    writer: ShownWriter,
) -> (ShownWriter, Result<(), AllocError>)
    requires batch { entries_of (drop writer.behind writer.log.items) ≡ B.entries }
    requires shows { Shows writer.desk.shown.value.parts (known writer.desk.place) }
    requires proper { GoesOn (known writer.desk.place) B.entries }
    requires next { IsNext (known writer.desk.place) B.entries }
    ensures ok { OnOk result.1 (Publishes B.entries (known writer.desk.place)
        result.0.desk.shown.value.parts (known result.0.desk.place)) }
    ensures none { OnOk result.1 (drop result.0.behind result.0.log.items ≡ []) }
    ensures view { OnErr result.1 (known result.0.desk.place ≡ known writer.desk.place) }
    ensures pending { OnErr result.1
        (drop result.0.behind result.0.log.items ≡ drop writer.behind writer.log.items) }
    ensures shown { OnErr result.1 (result.0.desk.shown.value ≡ writer.desk.shown.value) }
{
    writer.publish_as::<Publishing<B>, R>(rt)
}

/// Publishes the pending entries as one batch. A refusal leaves all as it was.
pub(super) fn published<R: Wait>(
    writer: ShownWriter,
    rt: &R,
) -> (ShownWriter, Result<(), AllocError>)
    requires shows { Shows writer.desk.shown.value.parts (known writer.desk.place) }
    requires proper { GoesOn (known writer.desk.place)
        (entries_of (drop writer.behind writer.log.items)) }
    requires next { IsNext (known writer.desk.place)
        (entries_of (drop writer.behind writer.log.items)) }
    ensures ok { OnOk result.1 (Publishes (entries_of (drop writer.behind writer.log.items))
        (known writer.desk.place) result.0.desk.shown.value.parts (known result.0.desk.place)) }
    ensures none { OnOk result.1 (drop result.0.behind result.0.log.items ≡ []) }
    ensures view { OnErr result.1 (known result.0.desk.place ≡ known writer.desk.place) }
    ensures pending { OnErr result.1
        (drop result.0.behind result.0.log.items ≡ drop writer.behind writer.log.items) }
    ensures shown { OnErr result.1 (result.0.desk.shown.value ≡ writer.desk.shown.value) }
{
    published_as::<Brand, R>(rt, writer)
}

// Makes the plan longer by the batches that `C` has.
fn planned_as<C: Coming>(writer: &mut ShownWriter, batches: &[Entries])
    requires writes { IsWriting (known writer.old.desk.place) }
    ensures view { known writer.new.desk.place
        ≡ planning C.batches (known writer.old.desk.place) }
    ensures shown { writer.new.desk.shown ≡ writer.old.desk.shown }
    ensures log { (writer.new.log ≡ writer.old.log) × (writer.new.behind ≡ writer.old.behind) }
{
    let _batches = batches;
    drop(writer.tell::<Planning<C>>());
}

/// Makes the plan longer by batches.
pub(super) fn planned(writer: &mut ShownWriter, batches: &[Entries])
    requires writes { IsWriting (known writer.old.desk.place) }
    ensures view { known writer.new.desk.place
        ≡ planning batches.now (known writer.old.desk.place) }
    ensures shown { writer.new.desk.shown ≡ writer.old.desk.shown }
    ensures log { (writer.new.log ≡ writer.old.log) × (writer.new.behind ≡ writer.old.behind) }
{
    planned_as::<Brand>(writer, batches)
}
