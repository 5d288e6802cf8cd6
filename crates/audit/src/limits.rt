// The limits of an audit.
ghost use Rattle.std.specs.Prelude.{◌≡◌};
ghost use Rattle.audit.specs.Limits.{most_lifted};
ghost use Rattle.audit.specs.declared.limits.TheConstants.{MOST_LIFTED};

/// The most nonces that are lifted out of a capture.
pub const MOST_LIFTED: usize = 1_000_000;

/// Law: the constant is the defined number, which is 1,000,000.
pub fn limits_are()
    ensures lifted { MOST_LIFTED ≡ most_lifted }
    ensures worked { most_lifted ≡ 1000000 }
{}
