//! The input of a trial: settings of n mappings, and a capture of n + 1 frames.
#![tactic(auto)]

mod capture;
mod settings;

pub use capture::trial_capture;
pub use settings::trial_settings;
