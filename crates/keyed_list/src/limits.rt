// The limit of a list of items.
ghost use Rattle.std.specs.Prelude.{◌≡◌};
ghost use Rattle.keyed_list.specs.Limits.{most_items};
ghost use Rattle.keyed_list.specs.declared.limits.TheConstants.{MOST_ITEMS};

/// The most items of a list, with those that there is room for (this router's choice).
pub const MOST_ITEMS: u32 = 1 << 30;

/// Law: the constant is the defined number.
pub fn limits_are()
    ensures { MOST_ITEMS ≡ most_items }
{}
