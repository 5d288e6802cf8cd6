//! Tests of the settings: what no run shows, shares of many instances, and settings that are
//! written.
#![tactic(auto)]

#[cfg(test)]
mod sameness;
#[cfg(test)]
mod shares;
#[cfg(test)]
mod texts;
#[cfg(test)]
mod values;
#[cfg(test)]
mod written;
