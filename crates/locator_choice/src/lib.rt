//! The numbers by which flows are spread: the hash of a flow (FNV-1a), the source port by that
//! hash, and the choice among locators by priority and weight.
#![tactic(auto)]

mod choice;
mod hash;
mod laws;
mod limits;

pub use choice::{Candidate, choose};
pub use hash::{flow_hash, octets_hash, source_port};
pub use ip_headers::{Addr, FiveTuple};
pub use laws::each_candidate_gets_its_share;
pub use limits::{FIRST_PORT, MOST_CANDIDATES, limits_are};
