//! The law of syndromes, and an instance.
ghost use Rattle.std.specs.Prelude.{◌≡◌, ◌+◌, ◌↔◌, ℕ, List, [], ◌∷◌, length};
ghost use Rattle.algebra_laws.specs.Lists.{Each};
ghost use Rattle.algebra_laws.specs.Field.{Apart};
ghost use Rattle.hail_syndrome.specs.Syndromes.{syndromes_of, AreValues};

/// Of N values at points that are apart, the first N - `keep` syndromes are all 0 exactly where the values
/// are those of a polynomial of degree below `keep`.
pub fn syndromes_are_zero_at_values_of_polynomial()
    ensures { (points values : List ℕ) (keep m : ℕ) → Apart points → length points ≡ length values
        → keep + m ≡ length points
        → Each (λ s. s ≡ 0) (syndromes_of points values m) ↔ AreValues points values keep }
{}

/// An instance: the values 0, 5, 10, 15, 2, 7 at the points 0 to 5 are those of 5 x, of degree below 2, and
/// their first four syndromes are 0.
pub fn a_line_has_no_syndromes()
    ensures points { Apart {A = ℕ} (0 ∷ 1 ∷ 2 ∷ 3 ∷ 4 ∷ 5 ∷ []) }
    ensures values { AreValues (0 ∷ 1 ∷ 2 ∷ 3 ∷ 4 ∷ 5 ∷ []) (0 ∷ 5 ∷ 10 ∷ 15 ∷ 2 ∷ 7 ∷ []) 2 }
    ensures zero { Each (λ s. s ≡ 0)
        (syndromes_of (0 ∷ 1 ∷ 2 ∷ 3 ∷ 4 ∷ 5 ∷ []) (0 ∷ 5 ∷ 10 ∷ 15 ∷ 2 ∷ 7 ∷ []) 4) }
{}
