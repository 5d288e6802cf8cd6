//! The words after the program's name, read as a command or refused.
#![tactic(auto)]

mod intake;
mod limits;
mod nonce_source;
mod options;
mod words;

pub use intake::{InputFormat, Intake};
pub use limits::{
    DEFAULT_ROUND_FRAMES, MOST_ROUND_FRAMES, MOST_TRIAL_MAPPINGS, MOST_WORKERS, limits_are,
};
pub use nonce_source::NonceSource;
pub use words::{Text, Word, Words, WordsFault, read_words};
