// The trial command: an input that is made from a number, replayed.
ghost use Rattle.std.specs.Prelude.{◌≡◌, ◌≤◌, ◌++◌, ◌∷◌, [], None, OnErr, OnOk, IfOk, IsErrOf, codes, option_map};
ghost use Rattle.desk.specs.declared.fault.DeskFault.TheVariants.{Failed};
ghost use Rattle.desk.specs.Causes.{HasCause, StaysSteady};
ghost use Rattle.desk.specs.World.{after_say};
ghost use Rattle.replay.specs.declared.status.Status.TheVariants.{Done};
ghost use Rattle.octets.specs.Rules.{first_failing};
ghost use Rattle.desk.specs.Shelf.{untouched};
ghost use Rattle.capture_io.specs.Capture.{header_rules};
ghost use Rattle.capture_io.specs.Frames.{capture};
ghost use Rattle.playback.specs.Written.{frames_of};
ghost use Rattle.trial_input.specs.Trial.{trial_packets};
ghost use Rattle.replay.specs.Front.{SaysPart};
ghost use Rattle.replay.specs.Trial.{hash_text, trial_file, trial_line, trial_text};
ghost use Rattle.command_words.specs.Limits.{most_trial_mappings};

use crate::Status;
use crate::captures::ReplayCaptures;
use crate::counts::Counts;
use crate::replaying::replay_file;
use command_words::{InputFormat, Intake};
use desk::{Desk, DeskFault, Files, NamedFile, SteadyDesk};
use locator_choice::octets_hash;
use octets::{NoMemory, Octets};
use router_log::{push_named, push_octets};
use sharing::{Crew, Gate};
use std::alloc::Global;
use std::sync::Wait;
use std::thread::Threads;
use trial_input::{trial_capture, trial_settings};

// The names of the files at the desk of a trial.
const INPUT: &str = "in";

const OUTPUT: &str = "out";

/// Replays the input that is made from `n`, over a desk of its own, and reports the line of the
/// trial.
pub(crate) fn try_number<R: Threads + Wait + Sync, D: Desk, G: Gate>(
    rt: &R,
    alloc: Global,
    desk: &mut D,
    n: u32,
    gate: &G,
) -> Result<Status, DeskFault>
    requires { n ≤ most_trial_mappings }
    ensures status { IfOk result (λ s. s ≡ Done) }
    ensures told { OnOk result (D.told desk.new
        ≡ option_map (after_say (trial_text n)) (D.told desk.old)) }
    ensures part { OnErr result (SaysPart (trial_text n) (D.told desk.old) (D.told desk.new)) }
    ensures cause { HasCause (D.faults desk.old) (D.faults desk.new) result }
    ensures steady { StaysSteady (D.steady desk.old) (D.steady desk.new)
        Unit (IsErrOf result Failed) }
{
    let line = replay_trial(rt, alloc, n, gate)?;
    desk.say(alloc, line.as_slice())?;
    Ok(Status::Done)
}

// The line of the trial of `n`, whose input is replayed without forwarders.
fn replay_trial<R: Threads + Wait + Sync, G: Gate>(
    rt: &R,
    alloc: Global,
    n: u32,
    gate: &G,
) -> Result<Octets, NoMemory>
    requires { n ≤ most_trial_mappings }
    ensures { IfOk result (λ line. line ≡ trial_text n) }
{
    let settings = trial_settings(alloc, n)?;
    let mut desk = trial_desk(alloc, n)?;
    let captures = ReplayCaptures {
        input: INPUT,
        intake: Intake {
            format: InputFormat::Classic,
            split: false,
        },
        output: OUTPUT,
    };
    let crew = Crew {
        rt,
        gate,
        workers: 0,
        round: 1,
    };
    match replay_file(&crew, alloc, &mut desk, &settings, &captures) {
        Ok(Ok(counts)) => {
            let Some(output) = desk.file(OUTPUT) else {
                unreachable!()
            };
            trial_line(alloc, n, counts, output)
        }
        Ok(Err(_)) => unreachable!(),
        Err(fault) => match fault {
            DeskFault::Memory => Err(NoMemory),
            DeskFault::Failed => unreachable!(),
        },
    }
}

// A desk in memory that has the capture of the trial of `n`.
fn trial_desk(alloc: Global, n: u32) -> Result<SteadyDesk, NoMemory>
    requires { n ≤ most_trial_mappings }
    ensures desk { IfOk result (λ desk. desk
        ≡ untouched (record { name = codes "in"; octets = trial_file n } ∷ [])) }
    ensures read { IfOk result (λ _. capture (trial_file n)
        ≡ record { frames = frames_of (trial_packets n); fault = None }) }
    ensures header { IfOk result (λ _. first_failing (header_rules (trial_file n)) ≡ None) }
{
    let mut files = Files::new(alloc);
    files.push(NamedFile {
        name: Octets::copied(alloc, INPUT.as_bytes())?,
        octets: trial_capture(alloc, n)?,
    })?;
    Ok(SteadyDesk::new(alloc, files))
}

// The line of a trial: its counts, and the hash of its output.
fn trial_line(alloc: Global, n: u32, counts: Counts, output: &[u8]) -> Result<Octets, NoMemory>
    ensures { IfOk result (λ line. line
        ≡ trial_line n counts.frames counts.written counts.entries output.now) }
{
    let mut line = Octets::new(alloc);
    push_named(b"trial ", u64::from(n), &mut line)?;
    push_named(b" frames=", u64::from(counts.frames), &mut line)?;
    push_named(b" written=", counts.written, &mut line)?;
    push_named(b" entries=", counts.entries, &mut line)?;
    line.append(b" hash=")?;
    push_hash(output, &mut line)?;
    line.push(b'\n')?;
    Ok(line)
}

fn push_hash(file: &[u8], out: &mut Octets) -> Result<(), NoMemory>
    ensures { OnOk result (out.new ≡ out.old ++ hash_text file.now) }
{
    let hash = octets_hash(file).to_be_bytes();
    push_octets(&hash, out)
}
