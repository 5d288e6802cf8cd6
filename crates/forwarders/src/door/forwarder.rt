// A forwarder, which reads the published table by looks.
ghost use Rattle.std.specs.Prelude.{◌≡◌, ◌+◌, ◌^◌, ◌<◌, IfOk, IfErr, IfSome, IfNone};
ghost use Rattle.std.specs.Fn.{FnOnceTakesAt, FnOnceReturnsAt};
ghost use Rattle.left_right.specs.Sides.{view as known};
ghost use Rattle.lisp_settings.specs.Lawful.{IsLawful};
ghost use Rattle.router_model.specs.Decide.{decide};
ghost use Rattle.forwarders.specs.Batches.{count_of, journal_of};
ghost use Rattle.forwarders.specs.Given.{IsGiven};
ghost use Rattle.forwarders.specs.Looks.{MayLook, Refuses, Rereads, Sees};
ghost use Rattle.forwarders.specs.Views.{IsReading, forwarding_of};

use super::keeping::{Entering, ShownReader};
use super::looks::{ForwardFault, Forwarded, Look};
use super::tally::Tally;
use capture_io::Frame;
use core::mem::replace_with;
use lisp_settings::Settings;
use router_core::Table;
use std::marker::{Model, PhantomData};

/// A reader of the published table, for one round.
#[derive(Drop)]
pub struct Forwarder {
    reader: ShownReader,
}

impl Model for Forwarder {
    ghost use Rattle.left_right.specs.Sides.{view as known};
    ghost use Rattle.forwarders.specs.Publication.{Forwarding};
    ghost use Rattle.forwarders.specs.Views.{IsReading, forwarding_of};

    ghost Value = { Forwarding };

    ghost view = { λ forwarder. forwarding_of (known forwarder.reader.place) };

    ghost invariant = { λ forwarder. IsReading (known forwarder.reader.place) };
}

// Enters the published table by a reader, and calls `look` on the table that it finds. Returns the
// reader, and the answer of `look` with a receipt, or None where entering was refused.
fn entered<X, F: FnOnce(&Table) -> X>(
    reader: ShownReader,
    look: (F, PhantomData<X>),
) -> (ShownReader, Option<(X, Look)>)
    requires reads { IsReading (known reader.place) }
    requires may { MayLook (FnOnceTakesAt F.FnOnce look.0) (forwarding_of (known reader.place)) }
    ensures reads { IsReading (known result.0.place) }
    ensures rereads { IfSome result.1 (λ _. Rereads (forwarding_of (known reader.place))
        (forwarding_of (known result.0.place))) }
    ensures sees { IfSome result.1 (λ seen. Sees (FnOnceReturnsAt F.FnOnce look.0)
        (forwarding_of (known result.0.place)) seen.0) }
    ensures count { IfSome result.1 (λ seen.
        seen.1 ≡ count_of (forwarding_of (known result.0.place)).seen) }
    ensures refused { IfNone result.1 (known result.0.place ≡ known reader.place) }
{
    match reader.enter_as::<Entering>() {
        Ok(reading) => {
            let table = reading.get().table();
            let count = table.count();
            let answer = (look.0)(table);
            (reading.leave(), Some((answer, Look { count })))
        }
        Err(reader) => (reader, None),
    }
}

impl Forwarder {
    // A forwarder of a reader that has learned list and plan.
    pub(super) fn over(reader: ShownReader) -> Forwarder
        requires { IsReading (known reader.place) }
        ensures { result ≡ forwarding_of (known reader.place) }
    {
        Forwarder { reader }
    }

    /// Calls `look` on the table that is published now, which has at least the entries that were
    /// seen before, and returns the answer with a receipt. None where the look was refused, which
    /// the tally counts.
    pub fn look<X, F: FnOnce(&Table) -> X>(
        &mut self,
        tally: &mut Tally,
        look: F,
    ) -> Option<(X, Look)>
        requires tally { tally.old < 2 ^ 63 }
        requires may { MayLook (FnOnceTakesAt F.FnOnce look) self.old }
        ensures rereads { IfSome result (λ _. Rereads self.old self.new) }
        ensures sees { IfSome result (λ seen. Sees (FnOnceReturnsAt F.FnOnce look) self.new seen.0) }
        ensures count { IfSome result (λ seen. seen.1 ≡ count_of self.new.seen) }
        ensures same { IfSome result (λ _. tally.new ≡ tally.old) }
        ensures refused { IfNone result ((self.new ≡ self.old) × (tally.new ≡ tally.old + 1)) }
    {
        let seen = replace_with(&mut self.reader, (look, PhantomData), entered::<X, F>);
        if seen.is_none() {
            tally.raise();
        }
        seen
    }

    /// The decision on a frame that is no control message, at a moment in nanoseconds, by the
    /// journal of all that is published now.
    pub fn forward(
        &mut self,
        settings: &Settings,
        m: u64,
        frame: &Frame,
        tally: &mut Tally,
    ) -> Result<Forwarded, ForwardFault>
        requires lawful { IsLawful settings.now }
        requires settings { settings.now ≡ self.old.settings }
        requires tally { tally.old < 2 ^ 63 }
        ensures decision { IfOk result (λ forwarded. forwarded.decision
            ≡ decide settings.now (journal_of self.new.seen) m frame.now) }
        ensures count { IfOk result (λ forwarded. forwarded.look ≡ count_of self.new.seen) }
        ensures given { IfOk result (λ forwarded. IsGiven forwarded.decision) }
        ensures rereads { IfOk result (λ _. Rereads self.old self.new) }
        ensures same { IfOk result (λ _. tally.new ≡ tally.old) }
        ensures refused { IfErr result (λ fault.
            Refuses fault self.old tally.old self.new tally.new) }
    {
        let seen = self.look(
            tally,
            |table: &Table|
                requires { IsLawful settings.now }
            { table.decide(settings, m, frame) },
        );
        let Some((decided, look)) = seen else {
            return Err(ForwardFault::NotEntered);
        };
        match decided {
            Ok(decision) => Ok(Forwarded { look, decision }),
            Err(_) => Err(ForwardFault::Memory),
        }
    }
}
