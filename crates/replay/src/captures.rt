// The captures of a command, as its words name them.

use command_words::{Intake, NonceSource};

/// The captures of a replay: the input, how it is taken, and the output.
#[derive(Clone, Copy)]
pub(crate) struct ReplayCaptures<'a> {
    pub input: &'a str,
    pub intake: Intake,
    pub output: &'a str,
}

/// The captures of an audit: what the router was given, what it sent, and where the nonces come
/// from.
#[derive(Clone, Copy)]
pub(crate) struct AuditCaptures<'a> {
    pub input: &'a str,
    pub sent: &'a str,
    pub nonces: NonceSource,
}
