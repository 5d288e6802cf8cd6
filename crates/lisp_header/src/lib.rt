//! The LISP data header (RFC 9300, section 5): read and written exactly; Map-Versions (RFC 9302).
#![tactic(auto)]

mod flags;
mod header;
mod laws;
mod order;
mod reading;
mod writing;

pub use header::{LISP_DATA_PORT, LispHeader};
pub use laws::{canonical_is_read_again, fronts_spell_one_header, versions_are_ordered};
pub use order::{newer, successor};
pub use reading::read_header;
pub use writing::write_header;
