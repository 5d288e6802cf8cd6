// Worked options and halves, which the definitions compute.
#![tactic(auto, unfolding(crate::specs::Options::options_within))]

ghost use Rattle.std.specs.Prelude.{◌≡◌, true, false, [], ◌∷◌, Some, None};
ghost use Rattle.split_v4.specs.Examples.{bad_options, fragment, fragment_first, fragment_second, two_options};
ghost use Rattle.split_v4.specs.Halves.{first_half, second_half};
ghost use Rattle.split_v4.specs.Options.{copied_in, options_in, padded};

/// Options are read up to their end, where each is well formed, and the copied ones are padded.
pub fn options_are_worked()
    ensures read { options_in two_options
        ≡ Some ((0x83 ∷ 4 ∷ 4 ∷ 1 ∷ []) ∷ (0x44 ∷ 3 ∷ 5 ∷ []) ∷ []) }
    ensures copied { copied_in two_options ≡ 0x83 ∷ 4 ∷ 4 ∷ 1 ∷ [] }
    ensures bad { options_in bad_options ≡ None }
    ensures none { options_in [] ≡ Some [] }
    ensures one { options_in (1 ∷ 1 ∷ 0 ∷ 7 ∷ []) ≡ Some ((1 ∷ []) ∷ (1 ∷ []) ∷ []) }
    ensures cut { options_in (0x83 ∷ 5 ∷ 4 ∷ 1 ∷ []) ≡ None }
    ensures padded { padded (0x83 ∷ 3 ∷ 4 ∷ []) ≡ 0x83 ∷ 3 ∷ 4 ∷ 0 ∷ [] }
{}

/// A fragment and its halves, with their checksums.
#[tactic(auto, unfolding(crate::specs::Options::options_within, crate::specs::Halves::summed))]
pub fn halves_are_worked()
    ensures first { first_half fragment ≡ fragment_first }
    ensures second { second_half fragment ≡ fragment_second }
{}
