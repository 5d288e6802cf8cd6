// The choice among the locators of a mapping: status bits, priorities, weights.
#![tactic(auto, unfolding(crate::proofs::OnLiterals::router_on_literals))]

ghost use Rattle.std.specs.Prelude.{◌≡◌, [], ◌∷◌, codes, false, map, None, Some, true};
ghost use Rattle.locator_choice.specs.Choice.{chosen};
ghost use Rattle.router_log.specs.declared.entry.Entry.TheVariants.{Bits, Learned};
ghost use Rattle.router_model.specs.Journal.{statics};
ghost use Rattle.router_model.specs.View.{view};
ghost use Rattle.router_examples.specs.Frames.{packet, tenths, told};
ghost use Rattle.router_examples.specs.Replays.{choices, frames, kept, report, said, verdict_on};
ghost use Rattle.router_examples.specs.Sites.{nine_locators, site_with, uneven, wide};

/// Eight status bits for a mapping of nine locators are entered once: the eighth locator goes down,
/// and the ninth stays up.
pub fn eight_bits_are_told_of_nine_locators()
    ensures lines { said nine_locators (frames (packet ∷ told ∷ told ∷ packet ∷ [])) ≡ report (
        codes "1 1700000000.000000000 n=1 encapsulated 192.0.2.1 198.51.100.4 64519"
        ∷ codes "2 1700000000.100000000 n=1 delivered 100"
        ∷ codes "3 1700000000.200000000 n=2 delivered 100"
        ∷ codes "4 1700000000.300000000 n=2 encapsulated 192.0.2.1 198.51.100.9 64519"
        ∷ []) }
    ensures journal { kept nine_locators (frames (told ∷ told ∷ []))
        ≡ Bits (tenths 0) wide 0x7f 8 ∷ statics nine_locators }
    ensures up { map (λ held. held.up)
        (view (kept nine_locators (frames (told ∷ []))) (tenths 1)).mappings
        ≡ (true ∷ true ∷ true ∷ true ∷ true ∷ true ∷ true ∷ false ∷ true ∷ []) ∷ [] }
{}

/// Of the locators that are up those of least priority count, and then their weights: a locator of
/// priority 0 that is down is passed over, and so is one of weight 0.
pub fn priorities_come_before_weights()
    ensures { verdict_on packet (site_with uneven)
        ≡ codes "encapsulated 192.0.2.1 198.51.100.8 64519" }
{}

/// Flow hashes fall to locators by the shares of their weights; equal weights, even of 0, have
/// equal shares.
pub fn hashes_fall_to_shares()
    ensures weights { choices (30 ∷ 20 ∷ 20 ∷ 10 ∷ [])
        (0 ∷ 29 ∷ 30 ∷ 49 ∷ 50 ∷ 69 ∷ 70 ∷ 79 ∷ 80 ∷ [])
        ≡ Some 0 ∷ Some 0 ∷ Some 1 ∷ Some 1 ∷ Some 2 ∷ Some 2 ∷ Some 3 ∷ Some 3 ∷ Some 0 ∷ [] }
    ensures equal { choices (0 ∷ 0 ∷ 0 ∷ 0 ∷ []) (0 ∷ 3 ∷ 4 ∷ [])
        ≡ Some 0 ∷ Some 3 ∷ Some 0 ∷ [] }
    ensures zero { choices (5 ∷ 0 ∷ []) (4 ∷ []) ≡ Some 0 ∷ [] }
    ensures unusable { chosen (record { usable = false; priority = 0; weight = 1 } ∷ []) 7 ≡ None }
{}
