// The limits of mappings, and the default of their TTL.
ghost use Rattle.std.specs.Prelude.{◌≡◌};
ghost use Rattle.mapping_records.specs.Limits.{default_minutes, most_locators, most_mappings};
ghost use Rattle.mapping_records.specs.declared.limits.TheConstants.{DEFAULT_MINUTES, MOST_LOCATORS, MOST_MAPPINGS};

/// The most locators of one mapping.
pub const MOST_LOCATORS: usize = 32;

/// The most mappings that are kept or set.
pub const MOST_MAPPINGS: usize = 65_536;

/// The minutes for which a mapping holds whose record leaves its TTL to the receiver.
pub const DEFAULT_MINUTES: u32 = 1440;

/// Law: the constants are the defined numbers.
pub fn limits_are()
    ensures locators { MOST_LOCATORS ≡ most_locators }
    ensures mappings { MOST_MAPPINGS ≡ most_mappings }
    ensures minutes { DEFAULT_MINUTES ≡ default_minutes }
{}
