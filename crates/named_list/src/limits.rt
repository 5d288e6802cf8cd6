// The numbers of names in a ring and behind all rings.
ghost use Rattle.std.specs.Prelude.{◌≡◌};
ghost use Rattle.named_list.specs.Limits.{ring_names, spare_names};
ghost use Rattle.named_list.specs.declared.limits.TheConstants.{RING_NAMES, SPARE_NAMES};

/// The number of names in a ring (this router's choice).
pub const RING_NAMES: usize = 512;

/// How many names lie behind all rings once a ring was closed (this router's choice).
pub const SPARE_NAMES: usize = 64;

/// Law: the constants are the defined numbers.
pub fn limits_are()
    ensures ring { RING_NAMES ≡ ring_names }
    ensures spare { SPARE_NAMES ≡ spare_names }
{}
