use crate::Link;
use octets::Octets;
use std::marker::Model;

/// A frame of a capture. It has fewer than 2^32 octets.
#[derive(Debug, Drop)]
pub struct Frame {
    /// The frame's place in its capture, from 1 on.
    pub number: u32,
    /// The moment in nanoseconds since 1970; no less than those of the frames before it.
    pub moment: u64,
    pub link: Link,
    pub octets: Octets,
}

impl Model for Frame {
    ghost use Rattle.std.specs.Prelude.{◌≤◌, ◌<◌, ◌^◌, length};
    ghost use Rattle.capture_io.specs.Frame.{Frame};

    ghost Value = { Frame };

    ghost view = { λ f.
        record { number = f.number; moment = f.moment; link = f.link; octets = f.octets } };

    ghost invariant = { λ f. (1 ≤ f.number) × (length f.octets < 2 ^ 32) };
}
