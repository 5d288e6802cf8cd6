// The door to the published table: all that touches its two copies.

mod change;
mod copies;
mod forwarder;
mod keeping;
mod looks;
mod opening;
mod published;
mod publishing;
mod shown;
mod tally;
mod view;

pub use forwarder::Forwarder;
pub use looks::{ForwardFault, Forwarded, Look};
pub use opening::open_hall;
pub use published::Published;
pub use tally::Tally;
