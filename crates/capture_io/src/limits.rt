// The limits of captures.
ghost use Rattle.std.specs.Prelude.{◌≡◌};
ghost use Rattle.capture_io.specs.Limits.{longest_span, most_frame_octets, most_records};
ghost use Rattle.capture_io.specs.declared.limits.TheConstants.{LONGEST_SPAN, MOST_FRAME_OCTETS, MOST_RECORDS};

/// The most records of a capture.
pub const MOST_RECORDS: u32 = 1_000_000_000;

/// How many octets of a frame a record keeps at most.
pub const MOST_FRAME_OCTETS: usize = 262_144;

/// The most nanoseconds from the greatest moment so far to the moment of a record.
pub const LONGEST_SPAN: u64 = 1_000_000_000_000_000;

/// Law: the constants are the defined numbers.
pub fn limits_are()
    ensures records { MOST_RECORDS ≡ most_records }
    ensures octets { MOST_FRAME_OCTETS ≡ most_frame_octets }
    ensures span { LONGEST_SPAN ≡ longest_span }
{}
