// The limits of a router's steps, and of Map-Versions.
ghost use Rattle.std.specs.Prelude.{◌≡◌};
ghost use Rattle.router_model.specs.Limits.{most_retries, most_told, most_version};
ghost use Rattle.router_core.specs.declared.limits.TheConstants.{MOST_RETRIES, MOST_TOLD, MOST_VERSION};

/// The most locators that get SMRs for changes in one second (this router's choice).
pub const MOST_TOLD: usize = 64;

/// How often a request is sent again, at most (this router's choice).
pub const MOST_RETRIES: u8 = 2;

/// The greatest Map-Version (RFC 9302, section 6: 12 bits).
pub const MOST_VERSION: u16 = 4095;

/// Law: the constants are the defined numbers.
pub fn limits_are()
    ensures told { MOST_TOLD ≡ most_told }
    ensures retries { MOST_RETRIES ≡ most_retries }
    ensures version { MOST_VERSION ≡ most_version }
{}
