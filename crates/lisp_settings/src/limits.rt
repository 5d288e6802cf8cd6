// The limits of a settings file, other than those of mappings.
ghost use Rattle.std.specs.Prelude.{◌≡◌};
ghost use Rattle.lisp_settings.specs.Limits.{greatest_second, most_attachments, most_changes, most_databases, most_limits, most_nonces, most_open, most_requests, most_text_octets};
ghost use Rattle.lisp_settings.specs.declared.limits.TheConstants.{GREATEST_SECOND, MOST_ATTACHMENTS, MOST_CHANGES, MOST_DATABASES, MOST_LIMITS, MOST_NONCES, MOST_OPEN, MOST_REQUESTS, MOST_TEXT_OCTETS};

/// The most octets of a settings file.
pub const MOST_TEXT_OCTETS: usize = 16_777_216;

/// The most nonces that a settings file may list.
pub const MOST_NONCES: usize = 4096;

/// The most attachments: one for each VLAN.
pub const MOST_ATTACHMENTS: usize = 4096;

/// The most EID prefixes of the site.
pub const MOST_DATABASES: usize = 64;

/// The most changes of own locators that a settings file may list.
pub const MOST_CHANGES: usize = 256;

/// The greatest second of a change, because seconds have 32 bits.
pub const GREATEST_SECOND: u32 = 4_294_967_295;

/// The most limits of instances that a settings file may state.
pub const MOST_LIMITS: usize = 4096;

/// The most requests for EIDs of one instance that are open at once (this router's choice).
pub const MOST_REQUESTS: u32 = 1024;

/// The most requests that are open at once, whatever their instances (this router's choice).
pub const MOST_OPEN: u32 = 16_384;

/// Law: the constants are the defined numbers.
pub fn limits_are()
    ensures octets { MOST_TEXT_OCTETS ≡ most_text_octets }
    ensures nonces { MOST_NONCES ≡ most_nonces }
    ensures attachments { MOST_ATTACHMENTS ≡ most_attachments }
    ensures databases { MOST_DATABASES ≡ most_databases }
    ensures changes { MOST_CHANGES ≡ most_changes }
    ensures second { GREATEST_SECOND ≡ greatest_second }
    ensures limits { MOST_LIMITS ≡ most_limits }
    ensures requests { MOST_REQUESTS ≡ most_requests }
    ensures open { MOST_OPEN ≡ most_open }
{}
