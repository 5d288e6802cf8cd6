// Laws of plays and of captures that were written. Each function has an empty body and states one
// law.
ghost use Rattle.std.specs.Prelude.{◌≡◌, ◌≤◌, ℕ, List, ◌++◌, length, None};
ghost use Rattle.octets.specs.Rules.{first_failing};
ghost use Rattle.capture_io.specs.Capture.{begin, format_of, header_rules};
ghost use Rattle.capture_io.specs.Frames.{capture, read_on};
ghost use Rattle.capture_io.specs.Output.{out_header};
ghost use Rattle.playback.specs.Determined.{CutsArePlayed, EndsArePlayed, StepsArePlayed};
ghost use Rattle.capture_events.specs.Events.{Packet, records_of};
ghost use Rattle.playback.specs.Limits.{most_records};
ghost use Rattle.playback.specs.Written.{AreInOrder, frames_of, out_format};

/// Law: where the outcome of each event is determined, and pauses and the end have none, a play
/// reports and writes these outcomes, and a play that is cut short reports and writes a beginning
/// of them.
pub fn determined_plays_are_played<S>()
    ensures steps { StepsArePlayed S }
    ensures ends { EndsArePlayed S }
    ensures cuts { CutsArePlayed S }
{}

/// Law: a capture written from packets that may follow one another, no more than it may have, is
/// read as frames with these packets, in order and without a fault. Its header breaks no rule,
/// whatever octets follow, and marks little-endian, nanoseconds and raw IP.
pub fn what_is_written_is_read()
    ensures header { (rest : List ℕ) →
        first_failing (header_rules (out_header ++ rest)) ≡ None }
    ensures format { (rest : List ℕ) → format_of (out_header ++ rest) ≡ out_format }
    ensures frames { (packets : List Packet) → AreInOrder None packets →
        length packets ≤ most_records →
        capture (out_header ++ records_of packets)
        ≡ record { frames = frames_of packets; fault = None } }
    ensures left { (packets : List Packet) → AreInOrder None packets →
        length packets ≤ most_records →
        read_on out_format begin (records_of packets)
        ≡ record { frames = frames_of packets; fault = None } }
{}
