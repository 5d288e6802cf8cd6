// The limits of a table.
ghost use Rattle.std.specs.Prelude.{◌≡◌};
ghost use Rattle.prefix_table.specs.Limits.{most_nodes, most_pairs};
ghost use Rattle.prefix_table.specs.declared.limits.TheConstants.{MOST_NODES, MOST_PAIRS};

/// The most nodes that a look-up reads: one for each length of an IPv6 prefix, from 0 to 128.
pub const MOST_NODES: u64 = 129;

/// The most pairs of a table, with those that there is room for (this router's choice).
pub const MOST_PAIRS: u32 = 1 << 30;

/// Law: the constants are the defined numbers.
pub fn limits_are()
    ensures nodes { MOST_NODES ≡ most_nodes }
    ensures pairs { MOST_PAIRS ≡ most_pairs }
{}
