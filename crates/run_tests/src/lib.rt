//! Tests of whole runs that rows of data can't state: calls that fail, hashes, files that stay,
//! tables at their limits.
#![tactic(auto)]

#[cfg(test)]
mod failures;
#[cfg(test)]
mod forwarding;
#[cfg(test)]
mod live_mappings;
#[cfg(test)]
mod open_requests;
#[cfg(test)]
mod rounds;
#[cfg(test)]
mod trials;
#[cfg(test)]
mod words;
