// How a capture is read, by the words.
ghost use Rattle.std.specs.Prelude.{◌≡◌, codes, map, string_bytes, option_map};
ghost use Rattle.command_words.specs.Words.{format_of, intake_of, named_format, split_of, value_of, with_interfaces, with_vlans};

use crate::Word;
use crate::options::value_of;

/// The format of a capture that is replayed.
#[derive(Clone, Copy, Debug, PartialEq, Eq)]
pub enum InputFormat {
    /// pcap.
    Classic,
    /// pcapng. With `vlans` each interface but the first is the VLAN of its number, for frames
    /// without a tag.
    Ng { vlans: bool },
}

/// How a capture that is replayed is read.
#[derive(Clone, Copy, Debug, PartialEq, Eq)]
pub struct Intake {
    pub format: InputFormat,
    /// Whether packets that are too large for a tunnel are split in two.
    pub split: bool,
}

/// How a capture is read by the options. None where one of them has another value.
pub fn intake_of(words: &[Word]) -> Option<Intake>
    ensures { result ≡ intake_of (map string_bytes words.now) }
{
    Some(Intake {
        format: format_of(words)?,
        split: split_of(value_of("--split", words))?,
    })
}

fn split_of(word: Option<&str>) -> Option<bool>
    ensures { result ≡ split_of (option_map (λ word. word.now) word.entry) }
{
    match word {
        None | Some("off") => Some(false),
        Some("on") => Some(true),
        Some(_) => None,
    }
}

// The format that the options name. None where a word names none, or a format that has no
/// interfaces is to have VLANs.
fn format_of(words: &[Word]) -> Option<InputFormat>
    ensures { result ≡ format_of (value_of (codes "--format") (map string_bytes words.now))
        (value_of (codes "--interfaces") (map string_bytes words.now)) }
{
    let format = named_format(value_of("--format", words))?;
    with_interfaces(value_of("--interfaces", words), format)
}

fn named_format(word: Option<&str>) -> Option<InputFormat>
    ensures { result ≡ named_format (option_map (λ word. word.now) word.entry) }
{
    match word {
        None | Some("classic") => Some(InputFormat::Classic),
        Some("ng") => Some(InputFormat::Ng { vlans: false }),
        Some(_) => None,
    }
}

fn with_interfaces(word: Option<&str>, format: InputFormat) -> Option<InputFormat>
    ensures { result ≡ with_interfaces (option_map (λ word. word.now) word.entry) format }
{
    match word {
        None | Some("none") => Some(format),
        Some("vlan") => with_vlans(format),
        Some(_) => None,
    }
}

fn with_vlans(format: InputFormat) -> Option<InputFormat>
    ensures { result ≡ with_vlans format }
{
    match format {
        InputFormat::Classic => None,
        InputFormat::Ng { vlans: _ } => Some(InputFormat::Ng { vlans: true }),
    }
}
