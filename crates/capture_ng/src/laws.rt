// The laws of a whole capture. Each function only states its law.
ghost use Rattle.std.specs.Prelude.{◌≡◌, ◌≤◌, ◌<◌, ℕ, length, List, Bool, false, None, drop};
ghost use Rattle.std.specs.List.{All};
ghost use Rattle.capture_io.specs.Frame.{Frame};
ghost use Rattle.capture_io.specs.Frames.{capture};
ghost use Rattle.capture_io.specs.Limits.{most_records};
ghost use Rattle.capture_io.specs.Run.{AreLater, goes_on};
ghost use Rattle.capture_io.specs.declared.link.Link.{Link};
ghost use Rattle.capture_ng.specs.Classic.{classic};
ghost use Rattle.capture_ng.specs.Found.{found};
ghost use Rattle.capture_ng.specs.Frames.{ng_fault, ng_frames, read_on};
ghost use Rattle.capture_ng.specs.Limits.{end_of_moments};
ghost use Rattle.capture_ng.specs.Position.{Position, begin};

/// Law: the frames left to read are the next frame that is found, and then those left behind it;
/// where the end or a fault is found, they end there. Whether interfaces are VLANs changes no
/// fault.
pub fn blocks_are_read_one_by_one()
    ensures found { (vlans : Bool) (at : Position) (left : List ℕ) →
        read_on vlans at left ≡ goes_on (found vlans at left).answer
        (read_on vlans (found vlans at left).position (drop (found vlans at left).taken left)) }
    ensures fault { (vlans : Bool) (file : List ℕ) →
        (read_on vlans begin file).fault ≡ ng_fault file }
{}

/// Law: the moments of a file's frames don't fall, and no moment is of 2^32 seconds or more. There
/// are no more frames than a capture may have records. In a file of octets each frame is of octets.
pub fn moments_do_not_fall()
    ensures later { (file : List ℕ) (vlans : Bool) → AreLater 0 (ng_frames file vlans) }
    ensures few { (file : List ℕ) (vlans : Bool) →
        length (ng_frames file vlans) ≤ most_records }
    ensures early { (file : List ℕ) (vlans : Bool) →
        All (λ frame. frame.moment < end_of_moments) (ng_frames file vlans) }
    ensures octets { (file : List ℕ) (vlans : Bool) → All (λ octet. octet < 256) file →
        All (λ frame. All (λ octet. octet < 256) frame.octets) (ng_frames file vlans) }
{}

/// Law: where all frames of a file have one link type, and interfaces are no VLANs, the classic
/// capture with nanoseconds that holds them has the same frames, and no fault.
pub fn a_classic_capture_has_the_same_frames()
    ensures { (file : List ℕ) (link : Link) →
        All (λ (f : Frame). f.link ≡ link) (ng_frames file false) →
        capture (classic link (ng_frames file false))
        ≡ record { frames = ng_frames file false; fault = None } }
{}
