// The limits of a play.
ghost use Rattle.std.specs.Prelude.{◌≡◌};
ghost use Rattle.playback.specs.Limits.{piece_octets};
ghost use Rattle.playback.specs.declared.limits.TheConstants.{PIECE_OCTETS};

/// The octets of gathered lines, or of gathered records, that make a piece to be handed on.
pub const PIECE_OCTETS: usize = 65_536;

/// Law: the constant is the defined number.
pub fn limits_are()
    ensures { PIECE_OCTETS ≡ piece_octets }
{}
