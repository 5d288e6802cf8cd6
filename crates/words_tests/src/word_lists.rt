// Lists of words, and their values.
use command_words::{InputFormat, Intake, NonceSource, Word, Words, WordsFault, read_words};
use std::alloc::Global;
use std::test::Fail;

/// The words of a replay of three files.
pub const REPLAY: &str = "replay --settings s --in i --out o";

/// The words of a replay, and the option `--round` without its value.
pub const ROUND: &str = "replay --settings s --in i --out o --round";

/// The words of a replay, and the option `--workers` without its value.
pub const WORKERS: &str = "replay --settings s --in i --out o --workers";

/// The words of a replay, and the option `--format` without its value.
pub const FORMAT: &str = "replay --settings s --in i --out o --format";

/// The words of a replay of a format that has interfaces, and the option `--interfaces` without its
/// value.
pub const INTERFACES: &str = "replay --settings s --in i --out o --format ng --interfaces";

/// The words of a replay, and the option `--split`, of whether large packets are split, without its
/// value.
pub const SPLIT: &str = "replay --settings s --in i --out o --split";

/// The words of an audit, and the option `--nonces` without its value.
pub const NONCES: &str = "audit --settings s --in i --sent t --nonces";

/// The words between the spaces of a text; two spaces in a row have an empty word between them.
pub fn words_in(alloc: Global, text: &str) -> Result<Vec<Word>, Fail> {
    let mut words: Vec<Word> = Vec::new(alloc);
    for word in text.split(' ') {
        words.push(String::from_str(alloc, word)?)?;
    }
    Ok(words)
}

/// The values of words, as text: the command, the files, how the capture is taken in, and the
/// numbers of workers and of a round's frames, or where the nonces of an audit come from.
pub fn said(alloc: Global, words: &[Word]) -> Result<String, Fail> {
    let text = match read_words(alloc, words) {
        Ok(
            Words::Replay {
                settings,
                input,
                output,
                intake,
                workers,
                round,
            },
        ) => {
            let (settings, input, output) = (settings.as_str(), input.as_str(), output.as_str());
            let intake = intake_word(intake);
            format!(in alloc; "replay {settings} {input} {output} {intake} {workers} {round}")?
        }
        Ok(Words::Show { input }) => format!(in alloc; "show {}", input.as_str())?,
        Ok(Words::Trial { n }) => format!(in alloc; "trial {n}")?,
        Ok(
            Words::Audit {
                settings,
                input,
                sent,
                nonces,
            },
        ) => {
            let (settings, input, sent) = (settings.as_str(), input.as_str(), sent.as_str());
            let nonces = nonces_word(nonces);
            format!(in alloc; "audit {settings} {input} {sent} {nonces}")?
        }
        Err(WordsFault::Usage) => String::from_str(alloc, "usage")?,
        Err(WordsFault::Memory) => String::from_str(alloc, "memory")?,
    };
    Ok(text)
}

fn nonces_word(nonces: NonceSource) -> &'static str {
    match nonces {
        NonceSource::Settings => "settings",
        NonceSource::Sent => "sent",
    }
}

fn intake_word(intake: Intake) -> &'static str {
    match (intake.format, intake.split) {
        (InputFormat::Classic, false) => "classic",
        (InputFormat::Classic, true) => "classic-split",
        (InputFormat::Ng { vlans: false }, false) => "ng",
        (InputFormat::Ng { vlans: false }, true) => "ng-split",
        (InputFormat::Ng { vlans: true }, false) => "ng-vlan",
        (InputFormat::Ng { vlans: true }, true) => "ng-vlan-split",
    }
}
