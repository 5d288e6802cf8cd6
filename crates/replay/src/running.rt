// The run of a command: the top call.
ghost use Rattle.std.specs.Prelude.{◌≡◌, ◌≢◌, ◌↔◌, ◌⊎◌, None, Some, false, true, map, string_bytes, IfOk, IfSome, IsErrOf, IsSomeAnd, IsTrue, OnErr};
ghost use Rattle.octets.specs.Causes.{Rose};
ghost use Rattle.desk.specs.declared.fault.DeskFault.TheVariants.{Failed};
ghost use Rattle.desk.specs.Causes.{HasCause, StaysSteady};
ghost use Rattle.desk.specs.World.{shown, shown_of};
ghost use Rattle.replay.specs.declared.status.Status.TheVariants.{Usage, Host, Memory};
ghost use Rattle.command_words.specs.Words.{words_of, AreWithinLimits};
ghost use Rattle.replay.specs.Answer.{answer, is_lawful_end, is_of_form, is_outside, Leaves};
ghost use Rattle.replay.specs.Owed.{AreThere};
ghost use Rattle.replay.specs.Shared.{has_workers, GivesAfter, GivesWith};
ghost use Rattle.replay.specs.Front.{part, LeavesFront};
ghost use Rattle.replay.specs.SharedFront.{EndsAfter, EndsWith};

use crate::audits::audit_capture;
use crate::captures::{AuditCaptures, ReplayCaptures};
use crate::last_lines::refuse_words;
use crate::replaying::replay_capture;
use crate::showing::show_capture;
use crate::trying::try_number;
use crate::{Status, Word};
use command_words::{Words, WordsFault, read_words};
use desk::{Desk, DeskFault};
use sharing::{Crew, Gate};
use std::alloc::Global;
use std::sync::Wait;
use std::thread::Threads;

/// Runs the command that the words give, over a desk, and returns the exit status. The clauses
/// compare a run with `answer`: the status, the report and the made file that words and files
/// determine, where the plain router decides each frame by its journal. Over a desk that shows its
/// content, any status but `Host` and `Memory` is that of `answer` (`status`), and without
/// forwarders the run leaves the report and the made file of `answer` (`left`). With forwarders it
/// leaves those of `answer_with` for some lawful numbers (`shared`): a data packet is decided by
/// the first n entries of its round's journal, and its line has that n. After `Host` or `Memory`
/// the run leaves a beginning of such a report and made file: all lines of some first events (with
/// forwarders, rounds) were reported, and no packet of a later one was written (`front`,
/// `shared_front`). The files that were there stay as they are. If `answer` has `Done` or
/// `Differs`, the status is the answer's or `Memory`, provided that by the desk's count of faults
/// no call failed, or that the desk is steady and shows that the files are there which the words
/// read (`complete`).
///
/// Over every desk, a status other than `Host` and `Memory` is `Usage` exactly if the words are of
/// no form (`usage`), `Host` comes only if the desk's count of faults rose or stands at 2^64 - 1
/// (`host`), and any other status leaves that count as it was (`kept`). A steady desk stays steady,
/// and if it shows that the files are there which the words read, the status isn't `Host`
/// (`steady`). With forwarders the run starts threads and waits for them. A forwarder calls the
/// gate before each decision.
pub fn run<R: Threads + Wait + Sync, D: Desk, G: Gate>(
    rt: &R,
    alloc: Global,
    words: &[Word],
    desk: &mut D,
    gate: &G,
) -> Status
    ensures status { is_outside result ≡ false → IfSome (D.told desk.old) (λ w.
        result ≡ (answer (map string_bytes words.now) w.files).status) }
    ensures left { is_outside result ≡ false → has_workers (words_of (map string_bytes words.now)) ≡ false
        → IfSome (shown (D.told desk.old)) (λ old. IsSomeAnd (shown (D.told desk.new))
        (Leaves (answer (map string_bytes words.now) old.files) old)) }

    // With forwarders too: status, report and made file are those of the answer for some numbers
    // that the data packets may have.
    ensures shared { is_outside result ≡ false → IfSome (D.told desk.old) (λ w.
        GivesWith (map string_bytes words.now) w.files result (shown_of w) (shown (D.told desk.new))) }

    // After `Host` or `Memory`, without forwarders: the report has a beginning of the answer's, and
    // no output was made, or one with a beginning of the answer's. All lines of some first events
    // were reported, and no packet of a later event was written. An octet of the last line was
    // reported only if the output is whole.
    ensures front { is_outside result ≡ true → has_workers (words_of (map string_bytes words.now)) ≡ false
        → IfSome (shown (D.told desk.old)) (λ old. IsSomeAnd (shown (D.told desk.new))
        (LeavesFront (answer (map string_bytes words.now) old.files)
        (part (map string_bytes words.now) old.files) old)) }

    // After `Host` or `Memory`, with forwarders too: a beginning of the answer for some numbers
    // that the data packets may have is left. With forwarders, rounds stand in place of events.
    ensures shared_front { is_outside result ≡ true → IfSome (D.told desk.old) (λ w.
        EndsWith (map string_bytes words.now) w.files (shown_of w) (D.told desk.new)) }

    // Causes, also over a desk that doesn't show its content: `Usage` marks words of no form,
    // `Host` comes only if the count of faults rose, and any other status leaves that count.
    ensures usage { is_outside result ≡ false
        → ((result ≡ Usage) ↔ (words_of (map string_bytes words.now) ≡ None)) }
    ensures host { result ≡ Host → Rose (D.faults desk.old) (D.faults desk.new) }
    ensures kept { result ≢ Host → D.faults desk.new ≡ D.faults desk.old }

    // A steady desk stays steady, and where it shows that the files are there which the words read,
    // in order, the status isn't `Host`.
    ensures steady { StaysSteady (D.steady desk.old) (D.steady desk.new)
        (AreThere (words_of (map string_bytes words.now)) (D.told desk.old))
        (result ≡ Host) }

    // Where the answer is that of lawful words, settings and captures, and no call failed, or the
    // desk is steady and has the files that the words read, the status is the answer's or `Memory`.
    ensures complete { IfSome (D.told desk.old) (λ w.
        IsTrue (is_lawful_end (answer (map string_bytes words.now) w.files).status)
        → ((¬ Rose (D.faults desk.old) (D.faults desk.new))
        ⊎ (IsTrue (D.steady desk.old)
        × AreThere (words_of (map string_bytes words.now)) (D.told desk.old)))
        → (result ≡ (answer (map string_bytes words.now) w.files).status) ⊎ (result ≡ Memory)) }
{
    match answer_words(rt, alloc, words, desk, gate) {
        Ok(status) => status,
        Err(DeskFault::Failed) => Status::Host,
        Err(DeskFault::Memory) => Status::Memory,
    }
}

fn answer_words<R: Threads + Wait + Sync, D: Desk, G: Gate>(
    rt: &R,
    alloc: Global,
    words: &[Word],
    desk: &mut D,
    gate: &G,
) -> Result<Status, DeskFault>
    ensures shared { IfOk result (λ s. IfSome (D.told desk.old) (λ w.
        GivesWith (map string_bytes words.now) w.files s (shown_of w) (shown (D.told desk.new)))) }
    ensures shared_front { OnErr result (IfSome (D.told desk.old) (λ w.
        EndsWith (map string_bytes words.now) w.files (shown_of w) (D.told desk.new))) }
    ensures inside { IfOk result (λ s. is_outside s ≡ false) }
    ensures usage { IfOk result (λ s.
        (s ≡ Usage) ↔ (words_of (map string_bytes words.now) ≡ None)) }
    ensures cause { HasCause (D.faults desk.old) (D.faults desk.new) result }
    ensures steady { StaysSteady (D.steady desk.old) (D.steady desk.new)
        (AreThere (words_of (map string_bytes words.now)) (D.told desk.old)) (IsErrOf result Failed) }
{
    match read_words(alloc, words) {
        Ok(words) => do_words(rt, alloc, desk, &words, gate),
        Err(WordsFault::Usage) => refuse_words(alloc, desk),
        Err(WordsFault::Memory) => Err(DeskFault::Memory),
    }
}

// Runs the command of the words: a replay, a show, a trial or an audit.
fn do_words<R: Threads + Wait + Sync, D: Desk, G: Gate>(
    rt: &R,
    alloc: Global,
    desk: &mut D,
    words: &Words,
    gate: &G,
) -> Result<Status, DeskFault>
    requires { AreWithinLimits words.now }
    ensures answer { IfOk result (λ s. IfSome (D.told desk.old) (λ w.
        GivesAfter w.files (Some words.now) s (shown_of w) (shown (D.told desk.new)))) }
    ensures front { OnErr result (IfSome (D.told desk.old) (λ w.
        EndsAfter w.files (Some words.now) (shown_of w) (D.told desk.new))) }
    ensures form { IfOk result (λ s. IsTrue (is_of_form s)) }
    ensures cause { HasCause (D.faults desk.old) (D.faults desk.new) result }
    ensures steady { StaysSteady (D.steady desk.old) (D.steady desk.new)
        (AreThere (Some words.now) (D.told desk.old)) (IsErrOf result Failed) }
{
    match words {
        Words::Replay {
            settings,
            input,
            output,
            intake,
            workers,
            round,
        } => {
            let crew = Crew {
                rt,
                gate,
                workers: u32::from(*workers),
                round: usize::from(*round),
            };
            let (settings, input, output) = (settings.as_str(), input.as_str(), output.as_str());
            let captures = ReplayCaptures {
                input,
                intake: *intake,
                output,
            };
            replay_capture(&crew, alloc, desk, settings, &captures)
        }
        Words::Show { input } => show_capture(alloc, desk, input.as_str()),
        Words::Trial { n } => try_number(rt, alloc, desk, *n, gate),
        Words::Audit {
            settings,
            input,
            sent,
            nonces,
        } => {
            let (settings, input, sent) = (settings.as_str(), input.as_str(), sent.as_str());
            let captures = AuditCaptures {
                input,
                sent,
                nonces: *nonces,
            };
            audit_capture(alloc, desk, settings, &captures)
        }
    }
}
