ghost use Rattle.std.specs.Prelude.{◌≡◌, ◌+◌, ◌<◌, ◌^◌, length};

use crate::Frame;

/// Where a reader stands between two records.
#[derive(Clone, Copy, Debug, PartialEq, Eq)]
pub struct Position {
    /// How many records were read.
    pub count: u32,
    /// The greatest moment of a record so far, in nanoseconds; None before the first record.
    pub greatest: Option<u64>,
    /// How many octets of the file were read.
    pub place: u64,
}

impl Position {
    ghost use Rattle.capture_io.specs.Capture.{begin};
    ghost use Rattle.capture_io.specs.Reading.{passed};

    /// The position behind the header of a file.
    pub fn begin() -> Position
        ensures { result ≡ begin }
    {
        Position {
            count: 0,
            greatest: None,
            place: 24,
        }
    }

    /// The position behind the record of a frame.
    pub fn passed(self, frame: &Frame) -> Position
        requires { self.place + 16 + length frame.now.octets < 2 ^ 64 }
        ensures { result ≡ passed self frame.now }
    {
        Position {
            count: frame.number,
            greatest: Some(frame.moment),
            place: self.place + 16 + frame.octets.len() as u64,
        }
    }
}
