// The limits of pcapng captures.
ghost use Rattle.std.specs.Prelude.{◌≡◌};
ghost use Rattle.capture_ng.specs.Limits.{end_of_moments, most_binary, most_block_octets, most_blocks, most_decimal, most_interfaces};
ghost use Rattle.capture_ng.specs.declared.limits.TheConstants.{END_OF_MOMENTS, MOST_BINARY, MOST_BLOCKS, MOST_BLOCK_OCTETS, MOST_DECIMAL, MOST_INTERFACES};

/// The most octets of a section header, an interface or a packet block.
pub const MOST_BLOCK_OCTETS: u32 = 1_048_576;

/// The most interfaces of a section.
pub const MOST_INTERFACES: usize = 4095;

/// The most blocks of a file.
pub const MOST_BLOCKS: u32 = 4_000_000_000;

/// The greatest k of an if_tsresol of 10^-k seconds.
pub const MOST_DECIMAL: u8 = 19;

/// The greatest k of an if_tsresol of 2^-k seconds.
pub const MOST_BINARY: u8 = 63;

/// The first moment that is too late for a frame, in nanoseconds since 1970: 2^32 seconds.
pub const END_OF_MOMENTS: u64 = 4_294_967_296_000_000_000;

/// Law: the constants are the defined numbers, which are these.
pub fn limits_are()
    ensures block { MOST_BLOCK_OCTETS ≡ most_block_octets }
    ensures interfaces { MOST_INTERFACES ≡ most_interfaces }
    ensures blocks { MOST_BLOCKS ≡ most_blocks }
    ensures decimal { MOST_DECIMAL ≡ most_decimal }
    ensures binary { MOST_BINARY ≡ most_binary }
    ensures moments { END_OF_MOMENTS ≡ end_of_moments }
    ensures worked_sizes { (most_block_octets ≡ 1048576)
        × ((most_interfaces ≡ 4095) × (most_blocks ≡ 4000000000)) }
    ensures worked_times { (most_decimal ≡ 19)
        × ((most_binary ≡ 63) × (end_of_moments ≡ 4294967296000000000)) }
{}
