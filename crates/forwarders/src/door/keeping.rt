// The rule for the views of readers and writer, and the steps that keep it.
ghost use Rattle.std.specs.Prelude.{List, []};
ghost use Rattle.router_log.specs.declared.entry.Entry.{Entry as EntryValue};
ghost use Rattle.forwarders.specs.declared.door.view.View.{View as ViewValue};
ghost use Rattle.forwarders.specs.declared.door.view.View.TheVariants.{Newcomer};
ghost use Rattle.forwarders.specs.Keeping.{Enters, Keeps, Publishes, Starts};
ghost use Rattle.forwarders.specs.Views.{changed, after_note, planning, told_of};

use super::change::Change;
use super::shown::Shown;
use super::view::View;
use atomic_table::{Join, Split};
use crossbeam_utils::rule::{Outcome, Protocol};
use left_right::Absorb;
use left_right::reader::Reader;
use left_right::writer::Writer;
use std::alloc::AllocError;
use std::marker::{Brand, PhantomData};

impl Absorb<Change> for Shown {
    type State = Shown;

    ghost state = { λ side. side };

    ghost applied = { changed };

    fn absorb_first(&mut self, operation: &Change, _other: &Shown) -> Result<(), AllocError> {
        match operation {
            Change::Adds(entry) => match self.absorb(entry) {
                Ok(()) => Ok(()),
                Err(_) => Err(AllocError),
            },
            Change::Opens => {
                self.open();
                Ok(())
            }
        }
    }
}

pub struct Kept;

impl Protocol<Shown, View> for Kept {
    ghost holds = { Keeps };

    ghost first = { Newcomer };
}

/// The step of a reader that enters the published table: a look.
pub struct Entering;

impl Outcome<Shown, View> for Entering {
    ghost then = { λ v before side w. Enters v side.parts w };
}

/// The writer's view after the first publication, as the call picks it.
pub trait First {
    ghost known: { ViewValue };
}

impl First for Brand {
    ghost known = { Newcomer };
}

/// The step of the writer that publishes for the first time.
pub struct Beginning<F> {
    first: PhantomData<F>,
}

impl<F: First> Outcome<Shown, View> for Beginning<F> {
    ghost then = { λ v before side w. Starts F.known side.parts w };
}

/// The batch that one publication adds, as the call picks it.
pub trait Batch {
    ghost entries: { List EntryValue };
}

impl Batch for Brand {
    ghost entries = { [] };
}

/// The step of the writer that publishes a further batch.
pub struct Publishing<B> {
    batch: PhantomData<B>,
}

impl<B: Batch> Outcome<Shown, View> for Publishing<B> {
    ghost then = { λ v before side w. Publishes B.entries v side.parts w };
}

/// The batches by which the plan grows, as the call picks them.
pub trait Coming {
    ghost batches: { List (List EntryValue) };
}

impl Coming for Brand {
    ghost batches = { [] };
}

/// The step of the writer that makes the plan longer.
pub struct Planning<C> {
    coming: PhantomData<C>,
}

impl<C: Coming> Split<View> for Planning<C> {
    ghost left = { planning C.batches };

    ghost right = { λ _. Newcomer };
}

/// The step of the writer that makes a note of list and plan for a reader.
pub struct Telling;

impl Split<View> for Telling {
    ghost left = { λ v. v };

    ghost right = { told_of };
}

/// The step of a reader that takes list and plan from the writer's note.
pub struct Learning;

impl Join<View> for Learning {
    ghost both = { after_note };

    ghost spent = { Newcomer };
}

pub type ShownReader = Reader<Shown, View, Kept>;

pub type ShownWriter = Writer<Shown, Change, View, Kept>;
