//! Packets out of the tunnel: opened (RFC 9300, section 5.3) and delivered (RFC 6040, section 4.2).
#![tactic(auto)]

mod delivery;
mod ecn;
mod fault;
mod laws;
mod opening;

pub use delivery::deliver;
pub use fault::{DecapDrop, OpenDrop};
pub use laws::delivered_left_the_tunnel;
pub use opening::{Tunnelled, open_tunnel};
