// The stay of a mapping, which the trie of a cache has under its EID.
ghost use Rattle.std.specs.Prelude.{◌≡◌};
ghost use Rattle.map_cache.specs.Indexed.{stay_lasts, stay_until};

/// The stay of a mapping: until when it lasts, and its name in the store.
#[derive(Clone, Copy, Drop)]
pub(crate) struct Stay {
    /// The moment at which the mapping ends, in nanoseconds; 0 where it is endless.
    pub end: u64,
    pub name: u32,
    /// Whether no moment ends the mapping: it is fixed, or its end is past the last moment.
    pub endless: bool,
}

// Fields lie in the order of the source: in another one a `Stay` takes more octets.
const _: () = prove!(std::mem::size_of::<Stay>() == 16);

/// The stay of a mapping of that name that is fixed or ends at a moment.
pub(crate) fn stay_until(fixed: bool, end: u128, name: u32) -> Stay
    ensures { result ≡ stay_until fixed end name }
{
    if fixed || end > u128::from(u64::MAX) {
        return Stay {
            end: 0,
            name,
            endless: true,
        };
    }
    Stay {
        end: end as u64,
        name,
        endless: false,
    }
}

/// Whether the mapping of a stay hasn't ended at a moment.
pub(crate) fn stay_lasts(now: u64, stay: &Stay) -> bool
    ensures { result ≡ stay_lasts now stay.now }
{
    stay.endless || now < stay.end
}
