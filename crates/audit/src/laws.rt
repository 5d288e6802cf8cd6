// Laws of an audit. Each function has an empty body and states one law.
ghost use Rattle.std.specs.Prelude.{◌≡◌, ℕ, ◌≤◌, List, [], ◌∷◌, ◌++◌, filter_map, length, map, nat_eq, nat_lt, slice_get};
ghost use Rattle.std.specs.List.{IsDistinct};
ghost use Rattle.ip_headers.specs.Packet.{IsPacket};
ghost use Rattle.capture_io.specs.Frame.{Frame};
ghost use Rattle.capture_io.specs.declared.link.Link.TheVariants.{Raw};
ghost use Rattle.lisp_settings.specs.declared.settings.Settings.{Settings};
ghost use Rattle.audit.specs.Compared.{all_expected, compared, expected, finished, IfSame};
ghost use Rattle.audit.specs.Lifted.{lifted, lifted_on};
ghost use Rattle.audit.specs.Limits.{most_lifted};
ghost use Rattle.audit.specs.Packets.{record_packet};
ghost use Rattle.audit.specs.Requests.{sent_nonce};
ghost use Rattle.audit.specs.declared.outcome.Outcome.{Outcome};
ghost use Rattle.audit.specs.declared.outcome.Outcome.TheVariants.{Same};

/// Law: packets that are expected one by one, each with the record at its place, and then finished
/// by whether there is a further record, have the outcome of all together. A further packet is
/// expected with the record at the next place. As long as all are the same, the outcome has their
/// number.
pub fn packets_compare_one_by_one()
    ensures all { (packets : List (List ℕ)) (frames : List Frame) →
        finished (all_expected (Same 0) packets frames) (nat_lt (length packets) (length frames))
        ≡ compared packets frames }
    ensures more { (outcome : Outcome) (packets : List (List ℕ)) (packet : List ℕ)
        (frames : List Frame) → all_expected outcome (packets ++ packet ∷ []) frames
        ≡ expected (all_expected outcome packets frames) packet
        (slice_get frames (length packets)) }
    ensures count { (packets : List (List ℕ)) (frames : List Frame) →
        IfSame (all_expected (Same 0) packets frames) (λ n. n ≡ length packets) }
{}

/// Law: the outcome is that all are the same exactly where the packets in the records are the due
/// ones, one after another and octet by octet.
pub fn same_is_equal()
    ensures equal { (packets : List (List ℕ)) (frames : List Frame) (n : ℕ) →
        compared packets frames ≡ Same n → packets ≡ map record_packet frames }
    ensures same { (frames : List Frame) →
        compared (map record_packet frames) frames ≡ Same (length frames) }
{}

/// Law: nonces are lifted frame by frame: none out of no frames, and then the nonce of each further
/// frame.
pub fn frames_lift_one_by_one()
    ensures none { (settings : Settings) → lifted settings [] ≡ [] }
    ensures more { (settings : Settings) (frames : List Frame) (frame : Frame) →
        lifted settings (frames ++ frame ∷ []) ≡ lifted_on settings (lifted settings frames) frame }
{}

/// Law: nonces that all differ, and are at most as many as may be lifted, are all lifted, in their
/// order.
pub fn differing_nonces_are_all_lifted()
    ensures { (settings : Settings) (frames : List Frame) →
        IsDistinct nat_eq (filter_map (sent_nonce settings) frames)
        → length (filter_map (sent_nonce settings) frames) ≤ most_lifted
        → lifted settings frames ≡ filter_map (sent_nonce settings) frames }
{}

/// Law: in a record without a link header whose octets are exactly one packet, the packet is all of
/// these octets.
pub fn raw_packets_are_whole()
    ensures { (frame : Frame) → frame.link ≡ Raw → IsPacket 0 frame.octets
        → record_packet frame ≡ frame.octets }
{}
