//! The base of every layer: lists over memory that may run out, numbers in octets, and the one
//! refusal of malformed octets.
#![tactic(auto)]

mod items;
mod numbers;
mod refused;

pub use items::{Items, NoMemory, Octets};
pub use numbers::{big_16, big_32, big_128, little_16, little_32};
pub use refused::{Layer, Refused, Why};
