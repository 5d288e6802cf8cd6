// The words after the program's name.
ghost use Rattle.std.specs.Prelude.{◌≡◌, ◌≤◌, Err, None, Some, codes, map, string_bytes, IfOk, IfSome, option_map};
ghost use Rattle.command_words.specs.Limits.{default_round_frames, most_round_frames, most_workers};
ghost use Rattle.command_words.specs.Words.{are_options, audit_names, audit_of, number_or, replay_names, replay_of, show_of, trial_of, value_of, words_of, AreWithinLimits};
ghost use Rattle.command_words.specs.declared.words.WordsFault.TheVariants.{Usage, Memory};

use crate::intake::intake_of;
use crate::limits::{DEFAULT_ROUND_FRAMES, MOST_ROUND_FRAMES, MOST_TRIAL_MAPPINGS, MOST_WORKERS};
use crate::nonce_source::nonces_of;
use crate::options::{are_options, number_in, number_or, value_of};
use crate::{Intake, NonceSource};
use std::alloc::{AllocError, Global};
use std::marker::Model;
use thiserror::Error;

/// A word after the program's name.
pub type Word = String;

/// One word, which contracts see as its octets.
#[derive(Debug, Drop)]
pub struct Text {
    word: String,
}

impl Model for Text {
    ghost use Rattle.std.specs.Prelude.{List, ℕ, string_bytes};

    ghost Value = { List ℕ };

    ghost view = { λ text. string_bytes text.word };
}

impl Text {
    /// The word.
    pub fn as_str(&self) -> &str
        ensures { result.now ≡ self.now }
    {
        self.word.as_str()
    }

    fn copied(alloc: Global, word: &str) -> Result<Text, AllocError>
        ensures { IfOk result (λ text. text ≡ word.now) }
    {
        Ok(Text {
            word: String::from_str(alloc, word)?,
        })
    }
}

/// A command, as the words give it.
#[derive(Debug, Drop)]
pub enum Words {
    /// A capture is replayed by settings, into an output: names of files. `workers` is the number
    /// of forwarder threads, `round` that of the frames handed to them at once.
    Replay {
        settings: Text,
        input: Text,
        output: Text,
        intake: Intake,
        workers: u8,
        round: u16,
    },
    /// The messages of a capture are shown.
    Show {
        input: Text,
    },
    /// An input of so many mappings is made and replayed.
    Trial {
        n: u32,
    },
    /// A capture of what a router sent is compared with what it should have sent, by settings and a
    /// capture of what it received.
    Audit {
        settings: Text,
        input: Text,
        sent: Text,
        nonces: NonceSource,
    },
}

/// Why words are no command.
#[derive(Clone, Copy, Debug, PartialEq, Eq, Error)]
pub enum WordsFault {
    /// They have none of the forms.
    #[error("the words are of no form")]
    Usage,
    /// An allocation failed.
    #[error("memory was refused")]
    Memory,
}

impl From<AllocError> for WordsFault {
    ghost from_gives = { λ _ fault. fault ≡ Memory };

    fn from(_: AllocError) -> Self {
        WordsFault::Memory
    }
}

/// The command that the words give, or that they have none of the forms.
pub fn read_words(alloc: Global, words: &[Word]) -> Result<Words, WordsFault>
    ensures ok { IfOk result (λ read. words_of (map string_bytes words.now) ≡ Some read) }
    ensures usage { result ≡ Err Usage → words_of (map string_bytes words.now) ≡ None }
    ensures limits { IfOk result AreWithinLimits }
{
    let [command, rest @ ..] = words else {
        return Err(WordsFault::Usage);
    };
    match command.as_str() {
        "replay" => read_replay(alloc, rest),
        "show" => read_show(alloc, rest),
        "trial" => read_trial(rest),
        "audit" => read_audit(alloc, rest),
        _ => Err(WordsFault::Usage),
    }
}

fn read_replay(alloc: Global, words: &[Word]) -> Result<Words, WordsFault>
    ensures ok { IfOk result (λ read. replay_of (map string_bytes words.now) ≡ Some read) }
    ensures usage { result ≡ Err Usage → replay_of (map string_bytes words.now) ≡ None }
    ensures limits { IfOk result AreWithinLimits }
{
    if !are_replay_options(words) {
        return Err(WordsFault::Usage);
    }
    let settings = value_of("--settings", words).ok_or(WordsFault::Usage)?;
    let input = value_of("--in", words).ok_or(WordsFault::Usage)?;
    let output = value_of("--out", words).ok_or(WordsFault::Usage)?;
    let intake = intake_of(words).ok_or(WordsFault::Usage)?;
    let workers = workers_of(words).ok_or(WordsFault::Usage)?;
    let round = round_of(words).ok_or(WordsFault::Usage)?;
    if output == input || output == settings {
        return Err(WordsFault::Usage);
    }
    let (settings, input, output) = all_copied(alloc, settings, input, output)?;
    Ok(Words::Replay {
        settings,
        input,
        output,
        intake,
        workers: workers as u8,
        round: round as u16,
    })
}

fn are_replay_options(words: &[Word]) -> bool
    ensures { result ≡ are_options replay_names (map string_bytes words.now) }
{
    let names = [
        "--settings",
        "--in",
        "--out",
        "--format",
        "--interfaces",
        "--split",
        "--workers",
        "--round",
    ];
    are_options(&names, words)
}

fn workers_of(words: &[Word]) -> Option<u32>
    ensures number { result ≡ number_or 0 most_workers 0
        (value_of (codes "--workers") (map string_bytes words.now)) }
    ensures within { IfSome result (λ n. n ≤ most_workers) }
{
    number_or(words, "--workers", (0, MOST_WORKERS), 0)
}

fn round_of(words: &[Word]) -> Option<u32>
    ensures number { result ≡ number_or 1 most_round_frames default_round_frames
        (value_of (codes "--round") (map string_bytes words.now)) }
    ensures within { IfSome result (λ n. (1 ≤ n) × (n ≤ most_round_frames)) }
{
    let bounds = (1, MOST_ROUND_FRAMES);
    number_or(words, "--round", bounds, DEFAULT_ROUND_FRAMES)
}

// Copies of three words.
fn all_copied(
    alloc: Global,
    first: &str,
    second: &str,
    third: &str,
) -> Result<(Text, Text, Text), AllocError>
    ensures first { IfOk result (λ copies. copies.0 ≡ first.now) }
    ensures second { IfOk result (λ copies. copies.1 ≡ second.now) }
    ensures third { IfOk result (λ copies. copies.2 ≡ third.now) }
{
    let first = Text::copied(alloc, first)?;
    let second = Text::copied(alloc, second)?;
    Ok((first, second, Text::copied(alloc, third)?))
}

fn read_show(alloc: Global, words: &[Word]) -> Result<Words, WordsFault>
    ensures ok { IfOk result (λ read. show_of (map string_bytes words.now) ≡ Some read) }
    ensures usage { result ≡ Err Usage → show_of (map string_bytes words.now) ≡ None }
    ensures limits { IfOk result AreWithinLimits }
{
    if !are_options(&["--in"], words) {
        return Err(WordsFault::Usage);
    }
    let input = value_of("--in", words).ok_or(WordsFault::Usage)?;
    Ok(Words::Show {
        input: Text::copied(alloc, input)?,
    })
}

fn read_trial(words: &[Word]) -> Result<Words, WordsFault>
    ensures ok { IfOk result (λ read. trial_of (map string_bytes words.now) ≡ Some read) }
    ensures usage { result ≡ Err Usage → trial_of (map string_bytes words.now) ≡ None }
    ensures limits { IfOk result AreWithinLimits }
{
    match words {
        [number] => match number_in(number.as_str(), 1, MOST_TRIAL_MAPPINGS) {
            Some(n) => Ok(Words::Trial { n }),
            None => Err(WordsFault::Usage),
        },
        _ => Err(WordsFault::Usage),
    }
}

fn read_audit(alloc: Global, words: &[Word]) -> Result<Words, WordsFault>
    ensures ok { IfOk result (λ read. audit_of (map string_bytes words.now) ≡ Some read) }
    ensures usage { result ≡ Err Usage → audit_of (map string_bytes words.now) ≡ None }
    ensures limits { IfOk result AreWithinLimits }
{
    if !are_audit_options(words) {
        return Err(WordsFault::Usage);
    }
    let settings = value_of("--settings", words).ok_or(WordsFault::Usage)?;
    let input = value_of("--in", words).ok_or(WordsFault::Usage)?;
    let sent = value_of("--sent", words).ok_or(WordsFault::Usage)?;
    let nonces = nonces_of(value_of("--nonces", words)).ok_or(WordsFault::Usage)?;
    let (settings, input, sent) = all_copied(alloc, settings, input, sent)?;
    Ok(Words::Audit {
        settings,
        input,
        sent,
        nonces,
    })
}

fn are_audit_options(words: &[Word]) -> bool
    ensures { result ≡ are_options audit_names (map string_bytes words.now) }
{
    let names = ["--settings", "--in", "--sent", "--nonces"];
    are_options(&names, words)
}
