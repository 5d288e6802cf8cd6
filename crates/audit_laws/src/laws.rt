// Laws of what the plain router sends. Each function only states its law.
ghost use Rattle.std.specs.Prelude.{◌≡◌, ℕ, List, All, None, IfSome, length, map};
ghost use Rattle.ip_headers.specs.Packet.{IsPacket};
ghost use Rattle.capture_io.specs.Frame.{Frame};
ghost use Rattle.capture_io.specs.Run.{AreLater};
ghost use Rattle.lisp_settings.specs.Lawful.{IsLawful};
ghost use Rattle.lisp_settings.specs.declared.settings.Settings.{Settings};
ghost use Rattle.capture_events.specs.Came.{IsRead};
ghost use Rattle.playback.specs.Written.{frames_of};
ghost use Rattle.router_log.specs.declared.emit.Emit.{Emit};
ghost use Rattle.router_model.specs.Decide.{decide_by};
ghost use Rattle.router_model.specs.Emits.{emit_packet};
ghost use Rattle.router_model.specs.Journal.{Journal};
ghost use Rattle.router_model.specs.Lifting.{AreOctets};
ghost use Rattle.router_model.specs.Plain.{packet_of};
ghost use Rattle.router_model.specs.Standing.{standing};
ghost use Rattle.router_model.specs.View.{View};
ghost use Rattle.audit.specs.Compared.{compared};
ghost use Rattle.audit.specs.Lifted.{lifted};
ghost use Rattle.audit.specs.declared.outcome.Outcome.TheVariants.{Same};
ghost use Rattle.audit_laws.specs.Drawn.{drawn_nonces, with_nonces, AreInRange, MayLift};
ghost use Rattle.audit_laws.specs.Sent.{sent_packets, written, CanBeMade};
ghost use Rattle.audit_laws.specs.Whole.{IsWhole};

/// Law: the packet of a decision on a frame of octets (encapsulated, delivered or forwarded
/// natively) is exactly one packet of octets. An emit that can be made, by the router's settings or
/// by those that stand, is exactly one packet, and so is each packet of a whole replay. A replay's
/// packets are of octets where the settings' numbers fit their types.
pub fn sent_packets_are_packets()
    ensures decision { (settings : Settings) (v : View) (frame : Frame) → AreOctets frame.octets
        → IfSome (packet_of (decide_by settings v frame).verdict) (IsPacket 0) }
    ensures emit { (settings : Settings) (emit : Emit) → IsLawful settings
        → CanBeMade settings emit → IsWhole (emit_packet settings emit) }
    ensures stands { (settings : Settings) (journal : Journal) (emit : Emit) → IsLawful settings
        → CanBeMade (standing settings journal) emit
        → IsWhole (emit_packet (standing settings journal) emit) }
    ensures all { (settings : Settings) (frames : List Frame) → IsLawful settings
        → All IsRead frames → AreLater 0 frames
        → All (λ packet. IsWhole packet.octets) (sent_packets settings frames) }
    ensures octets { (settings : Settings) (frames : List Frame) → IsLawful settings
        → AreInRange settings → All IsRead frames → AreLater 0 frames
        → All (λ packet. IsPacket 0 packet.octets) (sent_packets settings frames) }
{}

/// Law: the capture that is written of a replay's packets, where it has no fault, is read as just
/// these packets.
pub fn sent_packets_are_read()
    ensures { (settings : Settings) (frames : List Frame) → IsLawful settings
        → All IsRead frames → AreLater 0 frames → (written (sent_packets settings frames)).fault ≡ None
        → (written (sent_packets settings frames)).frames ≡ frames_of (sent_packets settings frames) }
{}

/// Law: the packets of a replay, compared with the capture that is written of them, are the same,
/// where that has no fault.
pub fn own_output_is_the_same()
    ensures { (settings : Settings) (frames : List Frame) → IsLawful settings
        → All IsRead frames → AreLater 0 frames → (written (sent_packets settings frames)).fault ≡ None
        → compared (map (λ packet. packet.octets) (sent_packets settings frames))
        (written (sent_packets settings frames)).frames
        ≡ Same (length (sent_packets settings frames)) }
{}

/// Law: under the conditions of `MayLift` (among them: no echoes, and nonces that differ) the
/// nonces that a replay draws are those that are lifted out of the packets that it sent, in their
/// order; likewise out of the capture written of these packets, where that has no fault.
pub fn drawn_nonces_are_lifted()
    ensures sent { (settings : Settings) (frames : List Frame) → MayLift settings frames
        → lifted settings (frames_of (sent_packets settings frames)) ≡ drawn_nonces settings frames }
    ensures written { (settings : Settings) (frames : List Frame) → MayLift settings frames
        → (written (sent_packets settings frames)).fault ≡ None
        → lifted settings (written (sent_packets settings frames)).frames ≡ drawn_nonces settings frames }
{}

/// Law: under the conditions of `MayLift`, and where the capture written of what a router sent has
/// no fault, a replay by its settings with any seed, and with the lifted nonces in place of its
/// own, sends the same packets.
pub fn lifted_nonces_make_it_the_same()
    ensures { (settings : Settings) (frames : List Frame) (seed nonces : List ℕ)
        → MayLift settings frames → (written (sent_packets settings frames)).fault ≡ None
        → let sent = (written (sent_packets settings frames)).frames in
        let found = lifted (with_nonces settings seed nonces) sent in
        compared (map (λ packet. packet.octets) (sent_packets (with_nonces settings seed found) frames)) sent
        ≡ Same (length sent) }
{}
