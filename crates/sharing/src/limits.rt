// The limit of the octets of a round.
ghost use Rattle.std.specs.Prelude.{◌≡◌};
ghost use Rattle.router_model.specs.Limits.{most_round_octets};
ghost use Rattle.sharing.specs.declared.limits.TheConstants.{MOST_ROUND_OCTETS};

/// The limit of a round's octets: the frame that brings a round past it closes the round.
pub const MOST_ROUND_OCTETS: usize = 16_777_216;

/// Law: the limit in code is the defined one.
pub fn limits_are()
    ensures { MOST_ROUND_OCTETS ≡ most_round_octets }
{}
