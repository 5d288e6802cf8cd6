// The limits and times of probes, echoes and solicitations.
ghost use Rattle.std.specs.Prelude.{◌≡◌};
ghost use Rattle.router_log.specs.Moments.{seconds};
ghost use Rattle.locator_state.specs.Limits.{echo_seconds, judged_seconds, most_probes, most_solicits, most_starts, most_targets, most_wishes, probe_seconds, rest_seconds, solicit_seconds, start_seconds, wish_seconds};
ghost use Rattle.locator_state.specs.declared.limits.TheConstants.{ECHO_WAIT, MOST_PROBES, MOST_SOLICITS, MOST_STARTS, MOST_TARGETS, MOST_WISHES, PROBE_LIFE, PROBE_REST, PROBE_WAIT, SOLICIT_LIFE, START_LIFE, WISH_LIFE};

/// The most probes in one second (this router's choice).
pub const MOST_TARGETS: usize = 16;

/// The most probes that count: 16 a second for as long as one counts.
pub const MOST_PROBES: usize = 9600;

/// How long a probe counts, in nanoseconds (this router's choice).
pub const PROBE_LIFE: u64 = 600_000_000_000;

/// How long a probe waits until it is judged, in nanoseconds (this router's choice).
pub const PROBE_WAIT: u64 = 3_000_000_000;

/// How long a locator isn't probed again, in nanoseconds (this router's choice).
pub const PROBE_REST: u64 = 60_000_000_000;

/// The most requested echoes that count (this router's choice).
pub const MOST_STARTS: usize = 4096;

/// The most wanted echoes that count (this router's choice).
pub const MOST_WISHES: usize = 4096;

/// How long a requested echo counts, in nanoseconds (this router's choice).
pub const START_LIFE: u64 = 60_000_000_000;

/// How long each packet to the locator requests the echo, in nanoseconds (this router's choice).
pub const ECHO_WAIT: u64 = 10_000_000_000;

/// How long a wanted echo counts, in nanoseconds (this router's choice).
pub const WISH_LIFE: u64 = 2_000_000_000;

/// The most solicitations that count (this router's choice).
pub const MOST_SOLICITS: usize = 4096;

/// How long a solicitation counts, in nanoseconds (this router's choice).
pub const SOLICIT_LIFE: u64 = 10_000_000_000;

/// Law: the constants are the defined numbers.
pub fn limits_are()
    ensures targets { MOST_TARGETS ≡ most_targets }
    ensures probes { MOST_PROBES ≡ most_probes }
    ensures probe_life { PROBE_LIFE ≡ seconds probe_seconds }
    ensures probe_wait { PROBE_WAIT ≡ seconds judged_seconds }
    ensures probe_rest { PROBE_REST ≡ seconds rest_seconds }
    ensures starts { MOST_STARTS ≡ most_starts }
    ensures wishes { MOST_WISHES ≡ most_wishes }
    ensures start_life { START_LIFE ≡ seconds start_seconds }
    ensures echo_wait { ECHO_WAIT ≡ seconds echo_seconds }
    ensures wish_life { WISH_LIFE ≡ seconds wish_seconds }
    ensures solicits { MOST_SOLICITS ≡ most_solicits }
    ensures solicit_life { SOLICIT_LIFE ≡ seconds solicit_seconds }
{}
