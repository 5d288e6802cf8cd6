//! Laws of an audit: each packet that the plain router sends is exactly one IP packet, and the
//! capture that is written of these packets is read as just them, so that an audit finds it the
//! same.
#![tactic(auto)]

mod laws;

pub use laws::{
    drawn_nonces_are_lifted, lifted_nonces_make_it_the_same, own_output_is_the_same,
    sent_packets_are_packets, sent_packets_are_read,
};
