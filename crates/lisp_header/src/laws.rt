// Laws of the definitions.
ghost use Rattle.std.specs.Prelude.{◌≡◌, ◌≢◌, ◌≤◌, ◌+◌, ◌++◌, ℕ, List, length, true, not};
ghost use Rattle.lisp_header.specs.declared.header.LispHeader.{LispHeader};
ghost use Rattle.lisp_header.specs.Header.{canonical, header_at, InRange, Spells};
ghost use Rattle.lisp_header.specs.Versions.{ahead, newer, successor};

/// Law: the octets written for a header in range spell it, and read as it, whatever follows.
pub fn canonical_is_read_again()
    ensures length { (header : LispHeader) → length (canonical header) ≡ 8 }
    ensures spells { (header : LispHeader) → InRange header → Spells (canonical header) header }
    ensures read { (header : LispHeader) (rest : List ℕ) → InRange header
        → header_at (canonical header ++ rest) ≡ header }
{}

/// Law: octets spell exactly one header.
pub fn fronts_spell_one_header()
    ensures some { (octets : List ℕ) → Spells octets (header_at octets) }
    ensures one { (octets : List ℕ) (header : LispHeader)
        → Spells octets header → header ≡ header_at octets }
{}

/// Law: of two different Map-Versions exactly one is newer: the one that is ahead by half the
/// circle at most. A successor is newer.
pub fn versions_are_ordered()
    ensures circle { (a b : ℕ) → a ≤ 4095 → b ≤ 4095 → a + 2048 ≢ b → newer a b ≡ ahead a b }
    ensures one { (a b : ℕ) → a ≤ 4095 → b ≤ 4095 → a ≢ b → newer a b ≡ not (newer b a) }
    ensures successor { (a : ℕ) → a ≤ 4095 → newer (successor a) a ≡ true }
{}
