//! What a router keeps of locators: probes (RFC 9301, section 7.1), echoed nonces (RFC 9300,
//! section 10.1), and solicitations (RFC 9301, section 6.1).
#![tactic(auto)]

mod echoing;
mod limits;
mod locators;
mod probing;
mod questions;
mod soliciting;
mod target;
mod turns;

pub use ip_headers::Addr;
pub use limits::{
    ECHO_WAIT, MOST_PROBES, MOST_SOLICITS, MOST_STARTS, MOST_TARGETS, MOST_WISHES, PROBE_LIFE,
    PROBE_REST, PROBE_WAIT, SOLICIT_LIFE, START_LIFE, WISH_LIFE, limits_are,
};
pub use locators::LocatorState;
pub use mapping_records::Eid;
pub use octets::NoMemory;
pub use router_log::{EchoOut, EchoStart, EchoWish, Probe, ProbeState, Solicitation};
pub use target::Target;
pub use turns::{has_rested, offer};
