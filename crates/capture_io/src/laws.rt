// The laws of a whole capture. Each function only states its law.
ghost use Rattle.std.specs.Prelude.{◌≡◌, ◌≤◌, ◌<◌, ◌*◌, ◌^◌, ℕ, List, length, drop, Some, IfOk, IfErr};
ghost use Rattle.std.specs.List.{All};
ghost use Rattle.capture_io.specs.Calls.{later_answer, frame_or_end};
ghost use Rattle.capture_io.specs.Capture.{begin};
ghost use Rattle.capture_io.specs.Frames.{capture, read_on};
ghost use Rattle.capture_io.specs.Limits.{most_records};
ghost use Rattle.capture_io.specs.Reading.{started};
ghost use Rattle.capture_io.specs.Run.{AreLater, ended};
ghost use Rattle.capture_io.specs.declared.format.Format.{Format};

/// Law: a reader returns the frames of its file in order, and then at each call None, or the file's
/// fault; it doesn't start where that fault is one of the header. By the clauses `call`, `after`
/// and `told` of `next`, `later_answer` is what call after call returns.
pub fn frames_come_in_order()
    ensures frames { (id k : ℕ) (file : List ℕ) → IfOk (started id file) (λ r.
        later_answer k r (drop 24 file) ≡ frame_or_end k (capture file)) }
    ensures refused { (id : ℕ) (file : List ℕ) → IfErr (started id file) (λ fault.
        capture file ≡ ended (Some fault)) }
{}

/// Law: the moments of a file's frames don't fall, and there are no more frames than a capture may
/// have records. In a file of octets no moment is of 2^32 seconds or more, and each frame is of
/// octets.
pub fn moments_do_not_fall()
    ensures later { (format : Format) (octets : List ℕ) →
        AreLater 0 (read_on format begin octets).frames }
    ensures few { (format : Format) (octets : List ℕ) →
        length (read_on format begin octets).frames ≤ most_records }
    ensures early { (format : Format) (octets : List ℕ) → All (λ octet. octet < 256) octets →
        All (λ frame. frame.moment < 2 ^ 32 * 1000000000) (read_on format begin octets).frames }
    ensures octets { (format : Format) (octets : List ℕ) → All (λ octet. octet < 256) octets →
        All (λ frame. All (λ octet. octet < 256) frame.octets)
        (read_on format begin octets).frames }
{}
