// The report's line and the status of an audit's finding.
ghost use Rattle.std.specs.Prelude.{◌≡◌, ◌++◌, ◌∷◌, [], codes, IfOk, OnOk};
ghost use Rattle.router_log.specs.Numbers.{named};
ghost use Rattle.replay.specs.Audit.{comparison_status, finding_line, finding_status};
ghost use Rattle.replay.specs.Lines.{comparison_line};

use crate::Status;
use crate::finding::Finding;
use crate::last_lines::{fault_line, sent_line, settings_line};
use audit::Outcome;
use octets::{NoMemory, Octets};
use router_log::push_named;
use std::alloc::Global;

/// The report's line of an audit's finding.
pub(crate) fn finding_line(alloc: Global, finding: &Finding) -> Result<Octets, NoMemory>
    ensures { IfOk result (λ line. line ≡ finding_line finding.now) }
{
    match finding {
        Finding::Settings(fault) => settings_line(alloc, fault),
        Finding::Echo => Octets::copied(alloc, b"settings bad-value echo\n"),
        Finding::Input(fault) => fault_line(alloc, *fault),
        Finding::Sent(fault) => sent_line(alloc, *fault),
        Finding::Compared(outcome) => comparison_line(alloc, *outcome),
    }
}

/// The status of an audit's finding.
pub(crate) fn finding_status(finding: &Finding) -> Status
    ensures { result ≡ finding_status finding.now }
{
    match finding {
        Finding::Settings(_) | Finding::Echo => Status::Settings,
        Finding::Input(_) | Finding::Sent(_) => Status::Capture,
        Finding::Compared(outcome) => comparison_status(*outcome),
    }
}

fn comparison_status(outcome: Outcome) -> Status
    ensures { result ≡ comparison_status outcome }
{
    match outcome {
        Outcome::Same { .. } => Status::Done,
        Outcome::Differs { .. } | Outcome::Missing { .. } | Outcome::Extra { .. } =>
            Status::Differs,
    }
}

fn comparison_line(alloc: Global, outcome: Outcome) -> Result<Octets, NoMemory>
    ensures { IfOk result (λ line. line ≡ comparison_line outcome) }
{
    let mut line = Octets::new(alloc);
    push_comparison(outcome, &mut line)?;
    Ok(line)
}

fn push_comparison(outcome: Outcome, out: &mut Octets) -> Result<(), NoMemory>
    ensures { OnOk result (out.new ≡ out.old ++ comparison_line outcome) }
{
    match outcome {
        Outcome::Same { packets } => push_ended(b"audit same packets=", packets, out),
        Outcome::Differs { position, place } => push_difference(position, place, out),
        Outcome::Missing { position } => push_ended(b"audit missing record=", position, out),
        Outcome::Extra { position } => push_ended(b"audit extra record=", position, out),
    }
}

fn push_difference(position: u64, place: u32, out: &mut Octets) -> Result<(), NoMemory>
    ensures { OnOk result (out.new ≡ out.old ++ (named (codes "audit differs record=") position
        ++ (named (codes " place=") place ++ 10 ∷ []))) }
{
    push_named(b"audit differs record=", position, out)?;
    push_ended(b" place=", u64::from(place), out)
}

// Appends a name and a number, and the line's end.
fn push_ended(name: &[u8], number: u64, out: &mut Octets) -> Result<(), NoMemory>
    ensures { OnOk result (out.new ≡ out.old ++ (named name.now number ++ 10 ∷ [])) }
{
    push_named(name, number, out)?;
    out.push(b'\n')
}
