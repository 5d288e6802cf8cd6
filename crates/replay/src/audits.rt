// The audit command: compares what a router sent with what the plain router sends, and reports the
// finding.
ghost use Rattle.std.specs.Prelude.{◌≡◌, Ok, IfOk, IfSome, IsErrOf, IsTrue, OnErr};
ghost use Rattle.desk.specs.declared.fault.DeskFault.TheVariants.{Failed};
ghost use Rattle.desk.specs.Causes.{HasCause, StaysSteady};
ghost use Rattle.desk.specs.World.{content, shown, shown_of, IsThere};
ghost use Rattle.command_words.specs.declared.nonce_source.NonceSource.TheVariants.{Sent as FromSent};
ghost use Rattle.lisp_settings.specs.Lawful.{IsLawful};
ghost use Rattle.lisp_settings.specs.Settings.{settings_of};
ghost use Rattle.replay.specs.Answer.{after_finding, is_of_form, Gives};
ghost use Rattle.replay.specs.Audit.{finding_at, finding_from, lifts_echoes};
ghost use Rattle.replay.specs.Front.{no_part, EndsFront};
ghost use Rattle.replay.specs.Opening.{IsUnread};
ghost use Rattle.replay.specs.Owed.{AreAudited, AreHeld};

use crate::Status;
use crate::captures::AuditCaptures;
use crate::comparing::{compare, lift_from, refuse_sent};
use crate::finding::Finding;
use crate::finding_lines::{finding_line, finding_status};
use crate::input::open_classic;
use crate::settings_file::load_settings;
use capture_io::CaptureReader;
use command_words::NonceSource;
use desk::{Desk, DeskFault};
use lisp_settings::{Nonces, Settings};
use std::alloc::Global;

/// Audits what a router sent, by the settings in the file of that name and what the router was
/// given: reports the line of the finding, and returns its status.
pub(crate) fn audit_capture<D: Desk>(
    alloc: Global,
    desk: &mut D,
    settings: &str,
    captures: &AuditCaptures<'_>,
) -> Result<Status, DeskFault>
    ensures answer { IfOk result (λ s. IfSome (D.told desk.old) (λ w.
        Gives (after_finding
        (finding_at captures.now w.files (settings_of (content settings.now w.files))))
        s (shown_of w) (shown (D.told desk.new)))) }
    ensures form { IfOk result (λ s. IsTrue (is_of_form s)) }
    ensures front { OnErr result (IfSome (D.told desk.old) (λ w.
        EndsFront (after_finding
        (finding_at captures.now w.files (settings_of (content settings.now w.files))))
        no_part (shown_of w) (D.told desk.new))) }
    ensures cause { HasCause (D.faults desk.old) (D.faults desk.new) result }
    ensures steady { StaysSteady (D.steady desk.old) (D.steady desk.new)
        (AreAudited captures.now.nonces settings.now captures.now.input.now captures.now.sent.now
        (D.told desk.old)) (IsErrOf result Failed) }
{
    let finding = find(alloc, desk, settings, captures)?;
    let line = finding_line(alloc, &finding)?;
    desk.say(alloc, line.as_slice())?;
    Ok(finding_status(&finding))
}

// The finding of an audit. Report and made files stay as they are.
fn find<D: Desk>(
    alloc: Global,
    desk: &mut D,
    settings: &str,
    captures: &AuditCaptures<'_>,
) -> Result<Finding, DeskFault>
    ensures found { IfOk result (λ finding. IfSome (D.told desk.old) (λ w. finding
        ≡ finding_at captures.now w.files (settings_of (content settings.now w.files)))) }
    ensures shown { shown (D.told desk.new) ≡ shown (D.told desk.old) }
    ensures cause { HasCause (D.faults desk.old) (D.faults desk.new) result }
    ensures steady { StaysSteady (D.steady desk.old) (D.steady desk.new)
        (AreAudited captures.now.nonces settings.now captures.now.input.now captures.now.sent.now
        (D.told desk.old)) (IsErrOf result Failed) }
{
    match load_settings(alloc, desk, settings)? {
        Ok(settings) => find_by(alloc, desk, settings, captures),
        Err(fault) => Ok(Finding::Settings(fault)),
    }
}

// The finding of an audit by lawful settings.
fn find_by<D: Desk>(
    alloc: Global,
    desk: &mut D,
    settings: Settings,
    captures: &AuditCaptures<'_>,
) -> Result<Finding, DeskFault>
    requires lawful { IsLawful settings }
    ensures found { IfOk result (λ finding. IfSome (D.told desk.old) (λ w. finding
        ≡ finding_at captures.now w.files (Ok settings))) }
    ensures shown { shown (D.told desk.new) ≡ shown (D.told desk.old) }
    ensures cause { HasCause (D.faults desk.old) (D.faults desk.new) result }
    ensures steady { StaysSteady (D.steady desk.old) (D.steady desk.new)
        (AreHeld captures.now.nonces captures.now.input.now captures.now.sent.now
        (D.told desk.old) settings) (IsErrOf result Failed) }
{
    if lifts_echoes(captures.nonces, &settings) {
        return Ok(Finding::Echo);
    }
    match open_classic(alloc, desk, captures.input)? {
        Ok(reader) => find_opened(alloc, desk, settings, reader, captures),
        Err(fault) => Ok(Finding::Input(fault)),
    }
}

// Whether an audit lifts nonces, and some of them may be those of echoes.
fn lifts_echoes(source: NonceSource, settings: &Settings) -> bool
    ensures { result ≡ lifts_echoes source settings.now }
{
    match source {
        NonceSource::Settings => false,
        NonceSource::Sent => settings.echo,
    }
}

// The finding of an audit by lawful settings. `reader` has read the header of the input capture.
fn find_opened<D: Desk>(
    alloc: Global,
    desk: &mut D,
    settings: Settings,
    reader: CaptureReader,
    captures: &AuditCaptures<'_>,
) -> Result<Finding, DeskFault>
    requires lawful { IsLawful settings }
    requires unread { IsUnread captures.now.input.now reader (D.given desk.old) (D.told desk.old) }
    ensures found { IfOk result (λ finding. IfSome (D.told desk.old) (λ w. finding
        ≡ finding_from captures.now.nonces captures.now w.files settings)) }
    ensures shown { shown (D.told desk.new) ≡ shown (D.told desk.old) }
    ensures cause { HasCause (D.faults desk.old) (D.faults desk.new) result }
    ensures steady { StaysSteady (D.steady desk.old) (D.steady desk.new)
        (IsThere captures.now.input.now (D.told desk.old)
        × IsThere captures.now.sent.now (D.told desk.old)) (IsErrOf result Failed) }
{
    match captures.nonces {
        NonceSource::Settings => compare(alloc, desk, &settings, reader, captures),
        NonceSource::Sent => find_lifted(alloc, desk, settings, reader, captures),
    }
}

// The finding of an audit by the nonces that are lifted out of the sent capture. `reader` has read
// the header of the input capture.
fn find_lifted<D: Desk>(
    alloc: Global,
    desk: &mut D,
    settings: Settings,
    reader: CaptureReader,
    captures: &AuditCaptures<'_>,
) -> Result<Finding, DeskFault>
    requires lawful { IsLawful settings }
    requires unread { IsUnread captures.now.input.now reader (D.given desk.old) (D.told desk.old) }
    ensures found { IfOk result (λ finding. IfSome (D.told desk.old) (λ w. finding
        ≡ finding_from FromSent captures.now w.files settings)) }
    ensures shown { shown (D.told desk.new) ≡ shown (D.told desk.old) }
    ensures cause { HasCause (D.faults desk.old) (D.faults desk.new) result }
    ensures steady { StaysSteady (D.steady desk.old) (D.steady desk.new)
        (IsThere captures.now.input.now (D.told desk.old)
        × IsThere captures.now.sent.now (D.told desk.old)) (IsErrOf result Failed) }
{
    match lift_from(alloc, desk, &settings, captures.sent)? {
        Ok(nonces) => {
            let settings = with_nonces(settings, nonces);
            compare(alloc, desk, &settings, reader, captures)
        }
        Err(fault) => refuse_sent(alloc, desk, captures.input, fault),
    }
}

// The settings with these nonces in place of their own.
fn with_nonces(settings: Settings, nonces: Nonces) -> Settings
    ensures { result ≡ record settings { nonces = nonces } }
{
    Settings { nonces, ..settings }
}
