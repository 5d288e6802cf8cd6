// The keys of ordered sets.
ghost use Rattle.std.specs.Prelude.{◌≡◌};

use std::cmp::Ordering;

/// A key of a set, with a total order.
pub trait Ordered: Drop {
    ghost use Rattle.std.specs.declared.cmp.Ordering.{Ordering};
    ghost use Rattle.std.specs.Cmp.{IsTotalOrder};

    ghost order: { Self → Self → Ordering };

    ghost is_total: { IsTotalOrder order };

    /// The order of the key and another one: below, equal or above.
    fn compare(&self, other: &Self) -> Ordering
        ensures { result ≡ order self.now other.now };
}
