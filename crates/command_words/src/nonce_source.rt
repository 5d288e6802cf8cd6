// The source of an audit's nonces, by the words.
ghost use Rattle.std.specs.Prelude.{◌≡◌, option_map};
ghost use Rattle.command_words.specs.Words.{nonces_of};

/// Where the nonces of an audit come from.
#[derive(Clone, Copy, Debug, PartialEq, Eq)]
pub enum NonceSource {
    /// From the settings, as in a replay.
    Settings,
    /// From the capture of the packets that were sent.
    Sent,
}

/// The source that this word names. None where it names none.
pub fn nonces_of(word: Option<&str>) -> Option<NonceSource>
    ensures { result ≡ nonces_of (option_map (λ word. word.now) word.entry) }
{
    match word {
        None | Some("settings") => Some(NonceSource::Settings),
        Some("sent") => Some(NonceSource::Sent),
        Some(_) => None,
    }
}
