// A round that is to be worked.
ghost use Rattle.std.specs.Prelude.{◌≡◌, ◌≤◌, length};
ghost use Rattle.router_model.specs.Rounds.{closing_moment};

use capture_io::Frame;
use lisp_settings::Settings;
use std::alloc::Global;

/// A round of a replay, from its beginning on: with what it is worked, and its frames.
#[derive(Drop)]
pub struct Round<'a, R, G> {
    /// The runtime, which starts threads and waits for them.
    pub rt: &'a R,
    /// The gate, called before each decision of a forwarder.
    pub gate: &'a G,
    /// The number of workers, at most 16.
    pub workers: u32,
    pub alloc: Global,
    pub settings: &'a Settings,
    /// The moment of the frame before the round, in nanoseconds; None before the first frame.
    pub previous: Option<u64>,
    pub frames: &'a [Frame],
}

impl<R, G> Round<'_, R, G> {
    /// The moment of the last frame, in nanoseconds: the round's notices are noted then.
    pub(crate) fn closes(&self) -> u64
        requires { 1 ≤ length self.now.frames.now }
        ensures { result ≡ closing_moment self.now.frames.now }
    {
        closing_moment(self.frames)
    }
}

/// The moment of the last frame of a round, in nanoseconds.
pub fn closing_moment(frames: &[Frame]) -> u64
    requires { 1 ≤ length frames.now }
    ensures { result ≡ closing_moment frames.now }
{
    let last = &frames[frames.len() - 1];
    last.moment
}
