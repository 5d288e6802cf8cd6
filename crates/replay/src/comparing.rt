// Two captures compared: the packets that the plain router sends for the one, and the records of
// the other.
ghost use Rattle.std.specs.Prelude.{◌≡◌, IfOk, IfSome, IsErrOf, OnOk};
ghost use Rattle.desk.specs.declared.fault.DeskFault.TheVariants.{Failed};
ghost use Rattle.desk.specs.Causes.{HasCause, StaysSteady};
ghost use Rattle.desk.specs.World.{content, shown, IsThere};
ghost use Rattle.command_words.specs.declared.intake.InputFormat.TheVariants.{Classic};
ghost use Rattle.command_words.specs.declared.nonce_source.NonceSource.TheVariants.{Settings as FromSettings};
ghost use Rattle.lisp_settings.specs.Lawful.{IsLawful};
ghost use Rattle.replay.specs.Audit.{fault_in, finding_from, found_in, refused, whole, LiftsFrom};
ghost use Rattle.replay.specs.Opening.{opened, IsUnread, KeepsGiven};

use crate::captures::AuditCaptures;
use crate::finding::Finding;
use crate::input::open_classic;
use crate::plainly::audit_plainly;
use auditing::{Audited, capture_fault, lift_nonces};
use capture_io::CaptureReader;
use desk::{Desk, DeskFault};
use lisp_settings::{Nonces, Settings};
use playback::InputFault;
use std::alloc::Global;

/// Compares the packets that the plain router sends for the input capture with the records of the
/// sent one, and returns the finding. `reader` has read the header of the input capture.
pub(crate) fn compare<D: Desk>(
    alloc: Global,
    desk: &mut D,
    settings: &Settings,
    reader: CaptureReader,
    captures: &AuditCaptures<'_>,
) -> Result<Finding, DeskFault>
    requires lawful { IsLawful settings.now }
    requires unread { IsUnread captures.now.input.now reader (D.given desk.old) (D.told desk.old) }
    ensures found { IfOk result (λ finding. IfSome (D.told desk.old) (λ w. finding
        ≡ finding_from FromSettings captures.now w.files settings.now)) }
    ensures shown { shown (D.told desk.new) ≡ shown (D.told desk.old) }
    ensures cause { HasCause (D.faults desk.old) (D.faults desk.new) result }
    ensures steady { StaysSteady (D.steady desk.old) (D.steady desk.new)
        (IsThere captures.now.input.now (D.told desk.old)
        × IsThere captures.now.sent.now (D.told desk.old)) (IsErrOf result Failed) }
{
    match open_classic(alloc, desk, captures.sent)? {
        Ok(records) => {
            let audited = audit_plainly(alloc, desk, settings, reader, records)?;
            finding_of(alloc, desk, captures.input, audited)
        }
        Err(fault) => refuse_sent(alloc, desk, captures.input, fault),
    }
}

// The finding of an audit of the input capture of that name, by what came of both captures.
fn finding_of<D: Desk>(
    alloc: Global,
    desk: &mut D,
    input: &str,
    audited: Audited,
) -> Result<Finding, DeskFault>
    ensures found { IfOk result (λ finding. IfSome (D.told desk.old) (λ w. finding
        ≡ found_in (whole (opened Classic (content input.now w.files))) audited)) }
    ensures shown { shown (D.told desk.new) ≡ shown (D.told desk.old) }
    ensures cause { HasCause (D.faults desk.old) (D.faults desk.new) result }
    ensures steady { StaysSteady (D.steady desk.old) (D.steady desk.new)
        (IsThere input.now (D.told desk.old)) (IsErrOf result Failed) }
{
    match audited {
        Audited::Compared(outcome) => Ok(Finding::Compared(outcome)),
        Audited::Played(fault) => Ok(Finding::Input(InputFault::Classic(fault))),
        Audited::Sent(fault) => refuse_sent(alloc, desk, input, InputFault::Classic(fault)),
    }
}

/// The finding of an audit whose sent capture has this fault: the fault, unless the capture named
/// by `input` has one of its own.
pub(crate) fn refuse_sent<D: Desk>(
    alloc: Global,
    desk: &mut D,
    input: &str,
    fault: InputFault,
) -> Result<Finding, DeskFault>
    ensures found { IfOk result (λ finding. IfSome (D.told desk.old) (λ w. finding
        ≡ refused (whole (opened Classic (content input.now w.files))) fault)) }
    ensures shown { shown (D.told desk.new) ≡ shown (D.told desk.old) }
    ensures cause { HasCause (D.faults desk.old) (D.faults desk.new) result }
    ensures steady { StaysSteady (D.steady desk.old) (D.steady desk.new)
        (IsThere input.now (D.told desk.old)) (IsErrOf result Failed) }
{
    match find_fault(alloc, desk, input)? {
        Some(own) => Ok(Finding::Input(own)),
        None => Ok(Finding::Sent(fault)),
    }
}

// The fault of the classic capture of that name, or None where it has none.
fn find_fault<D: Desk>(
    alloc: Global,
    desk: &mut D,
    name: &str,
) -> Result<Option<InputFault>, DeskFault>
    ensures fault { IfOk result (λ fault. IfSome (D.told desk.old) (λ w. fault
        ≡ fault_in (whole (opened Classic (content name.now w.files))))) }
    ensures shown { shown (D.told desk.new) ≡ shown (D.told desk.old) }
    ensures cause { HasCause (D.faults desk.old) (D.faults desk.new) result }
    ensures steady { StaysSteady (D.steady desk.old) (D.steady desk.new)
        (IsThere name.now (D.told desk.old)) (IsErrOf result Failed) }
{
    match open_classic(alloc, desk, name)? {
        Ok(reader) => match capture_fault(alloc, desk, reader)? {
            Some(fault) => Ok(Some(InputFault::Classic(fault))),
            None => Ok(None),
        },
        Err(fault) => Ok(Some(fault)),
    }
}

/// The nonces that the router of these settings sent, lifted out of the capture named by `sent`; or
/// the fault of that capture.
pub(crate) fn lift_from<D: Desk>(
    alloc: Global,
    desk: &mut D,
    settings: &Settings,
    sent: &str,
) -> Result<Result<Nonces, InputFault>, DeskFault>
    ensures lifted { IfOk result (λ nonces. IfSome (D.told desk.old) (λ w.
        LiftsFrom settings.now (whole (opened Classic (content sent.now w.files))) nonces)) }
    ensures kept { IfOk result (λ nonces. OnOk nonces
        (KeepsGiven (D.given desk.old) (D.told desk.old) (D.given desk.new) (D.told desk.new))) }
    ensures shown { shown (D.told desk.new) ≡ shown (D.told desk.old) }
    ensures cause { HasCause (D.faults desk.old) (D.faults desk.new) result }
    ensures steady { StaysSteady (D.steady desk.old) (D.steady desk.new)
        (IsThere sent.now (D.told desk.old)) (IsErrOf result Failed) }
{
    match open_classic(alloc, desk, sent)? {
        Ok(records) => match lift_nonces(alloc, desk, settings, records)? {
            Ok(nonces) => Ok(Ok(nonces)),
            Err(fault) => Ok(Err(InputFault::Classic(fault))),
        },
        Err(fault) => Ok(Err(fault)),
    }
}
