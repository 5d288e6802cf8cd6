// Laws of halves. Each function only states its law.
ghost use Rattle.std.specs.Prelude.{◌≡◌, ◌≤◌, ◌+◌, ◌++◌, ◌∷◌, ℕ, List, All, None, IsTrue, length};
ghost use Rattle.std.specs.List.{flat_map};
ghost use Rattle.ip_headers.specs.Packet.{IsPacket};
ghost use Rattle.capture_io.specs.Frame.{Frame};
ghost use Rattle.lisp_settings.specs.declared.settings.Settings.{Settings};
ghost use Rattle.split_v4.specs.Halves.{first_half, halves, may_split, numbered, parts_of, second_half, split_from};
ghost use Rattle.split_v4.specs.Joining.{IsPart, Join};
ghost use Rattle.split_v4.specs.Limits.{split_size};

/// Each half of a packet is a packet, whose lengths and checksum are right, and no longer.
pub fn halves_are_packets()
    ensures first { (settings : Settings) (base : ℕ) (packet : List ℕ) → IsPacket base packet
        → IsTrue (may_split settings packet) → IsPart packet (first_half packet) }
    ensures second { (settings : Settings) (base : ℕ) (packet : List ℕ) → IsPacket base packet
        → IsTrue (may_split settings packet) → IsPart packet (second_half packet) }
{}

/// The payloads of the halves of a packet, joined, are its payload, and their offsets meet.
pub fn halves_join()
    ensures { (settings : Settings) (base : ℕ) (packet : List ℕ) → IsPacket base packet
        → IsTrue (may_split settings packet)
        → Join packet (first_half packet) (second_half packet) }
{}

/// A frame that isn't longer than a packet that isn't split has no halves.
pub fn short_frames_stay()
    ensures { (settings : Settings) (frame : Frame) → length frame.octets ≤ split_size settings
        → halves settings frame ≡ None }
{}

/// Frames are split one after another, and numbered on.
pub fn frames_are_split_in_order()
    ensures one { (settings : Settings) (n : ℕ) (frame : Frame) (frames : List Frame)
        → split_from settings n (frame ∷ frames) ≡ numbered n (parts_of settings frame)
        ++ split_from settings (n + length (parts_of settings frame)) frames }
    ensures more { (settings : Settings) (n : ℕ) (frames more : List Frame)
        → split_from settings n (frames ++ more) ≡ split_from settings n frames
        ++ split_from settings (n + length (flat_map (parts_of settings) frames)) more }
    ensures short { (settings : Settings) (n : ℕ) (frames : List Frame)
        → All (λ frame. length frame.octets ≤ split_size settings) frames
        → split_from settings n frames ≡ numbered n frames }
{}
