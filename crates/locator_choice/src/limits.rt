// The limits of the choice, and the ports that flows get.
ghost use Rattle.std.specs.Prelude.{◌≡◌};
ghost use Rattle.locator_choice.specs.Limits.{first_port, most_candidates};
ghost use Rattle.locator_choice.specs.declared.limits.TheConstants.{FIRST_PORT, MOST_CANDIDATES};

/// The most candidates among which one is chosen.
pub const MOST_CANDIDATES: usize = 32;

/// The least source port of a tunnel packet.
pub const FIRST_PORT: u16 = 0xc000;

/// Law: the constants are the defined numbers.
pub fn limits_are()
    ensures candidates { MOST_CANDIDATES ≡ most_candidates }
    ensures port { FIRST_PORT ≡ first_port }
{}
