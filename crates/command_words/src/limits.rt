// The limits of the numbers among the words.
ghost use Rattle.std.specs.Prelude.{◌≡◌};
ghost use Rattle.command_words.specs.Limits.{default_round_frames, most_round_frames, most_trial_mappings, most_workers};
ghost use Rattle.command_words.specs.declared.limits.TheConstants.{DEFAULT_ROUND_FRAMES, MOST_ROUND_FRAMES, MOST_TRIAL_MAPPINGS, MOST_WORKERS};

/// The most forwarders that decide data packets beside each other.
pub const MOST_WORKERS: u32 = 16;

/// The most frames that are handed to forwarders at once.
pub const MOST_ROUND_FRAMES: u32 = 4096;

/// The frames that are handed to forwarders at once, where no word gives their number.
pub const DEFAULT_ROUND_FRAMES: u32 = 256;

/// The most mappings of a trial.
pub const MOST_TRIAL_MAPPINGS: u32 = 50_000;

/// Law: the constants are the defined numbers.
pub fn limits_are()
    ensures workers { MOST_WORKERS ≡ most_workers }
    ensures frames { MOST_ROUND_FRAMES ≡ most_round_frames }
    ensures default { DEFAULT_ROUND_FRAMES ≡ default_round_frames }
    ensures mappings { MOST_TRIAL_MAPPINGS ≡ most_trial_mappings }
{}
