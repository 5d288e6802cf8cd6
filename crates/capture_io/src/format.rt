// The format of a file's records.
use crate::Link;
use crate::order::Order;

/// The unit of the fraction in a record's moment.
#[derive(Clone, Copy, Debug, PartialEq, Eq)]
pub enum Fraction {
    Microseconds,
    Nanoseconds,
}

impl Fraction {
    ghost use Rattle.std.specs.Prelude.{◌≡◌};
    ghost use Rattle.capture_io.specs.Capture.{per_second, nanoseconds};

    /// How many of this unit make a second.
    pub fn per_second(self) -> u32
        ensures { result ≡ per_second self }
    {
        match self {
            Fraction::Microseconds => 1_000_000,
            Fraction::Nanoseconds => 1_000_000_000,
        }
    }

    /// How many nanoseconds this unit has.
    pub fn nanoseconds(self) -> u32
        ensures { result ≡ nanoseconds self }
    {
        match self {
            Fraction::Microseconds => 1000,
            Fraction::Nanoseconds => 1,
        }
    }
}

/// The format of a file's records, by the file's header: byte order, unit of fractions and link
/// type.
#[derive(Clone, Copy, Debug, PartialEq, Eq)]
pub struct Format {
    pub order: Order,
    pub fraction: Fraction,
    pub link: Link,
}
