// The finding of an audit.
use audit::Outcome;
use lisp_settings::SettingsFault;
use playback::InputFault;

/// The finding of an audit: why it can't be made, or how the sent packets compare.
#[derive(Drop)]
pub enum Finding {
    /// The settings are refused.
    Settings(SettingsFault),
    /// Nonces are to be lifted, and the settings have `echo` set: no packet carries the whole nonce
    /// of an echo.
    Echo,
    /// The capture that the router was given is refused.
    Input(InputFault),
    /// The capture of what the router sent is refused.
    Sent(InputFault),
    /// How the packets that the router sent compare with those of the plain router.
    Compared(Outcome),
}
