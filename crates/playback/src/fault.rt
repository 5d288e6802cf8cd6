// Why a capture can't be read on.
use capture_io::CaptureFault;
use capture_ng::NgFault;

/// The first fault of a capture, by its format: a fault of the file, never one of the desk or of
/// memory.
#[derive(Clone, Copy, Debug, PartialEq, Eq)]
pub enum InputFault {
    Classic(CaptureFault),
    Ng(NgFault),
}
