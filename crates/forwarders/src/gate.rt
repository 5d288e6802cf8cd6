// The gate, where a forwarder's decision may be held up.

/// A call that a forwarder makes before each decision. No clause depends on it: a test may hold a
/// worker in it.
pub trait Gate: Sync {
    /// Called right before worker `worker` decides the frame with the number `number`.
    fn before(&self, worker: u32, number: u32);
}

/// A gate that holds no worker up.
#[derive(Clone, Copy, Debug)]
pub struct OpenGate;

impl Gate for OpenGate {
    fn before(&self, _worker: u32, _number: u32) {}
}
