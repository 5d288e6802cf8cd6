//! Packets into the tunnel (RFC 9300, section 5.3), and past it with their TTL one less.
#![tactic(auto)]

mod fault;
mod forwarding;
mod laws;
mod limits;
mod outer;
mod wrapping;

pub use fault::EncapDrop;
pub use forwarding::forward_native;
pub use laws::{forwarded_goes_one_hop, wrapped_carries_the_packet};
pub use limits::{MOST_TUNNEL_OCTETS, limits_are};
pub use wrapping::encapsulate;
