//! The laws of polynomials at work over the nim field: each premise met by numbers.
ghost use Rattle.std.specs.Prelude.{◌≡◌, ◌≤◌, ◌+◌, ◌*◌, ℕ, All, List, [], ◌∷◌, length, Option, Some, IfSome};
ghost use Rattle.algebra_laws.specs.Field.{IsField, IsEndless, Apart};
ghost use Rattle.hail_field.specs.Nim.{nim, nim_mul, nim_add, is_symbol};
ghost use Rattle.algebra_laws.specs.Poly.{Decodes, FirstRow};
ghost use Rattle.algebra_laws.specs.Rows.{IsKeyEquation};
ghost use Rattle.code_defs.specs.Profiles.{profile_of};
ghost use Rattle.code_defs.specs.ServerCode.{IsNear};
ghost use Rattle.code_defs.specs.DispersalCode.{Accepts};
ghost use Rattle.code_defs.specs.Polynomials.{value, vanish, interpolate, trim, agree, TakesSymbols};

/// The points 0 and 1 are apart, and 1 + 2 x takes the values 1 and 3 there: it is the interpolating
/// polynomial, spelt with a zero at its end too, and divided by 1 + x, whose leading coefficient is not 0, it
/// leaves 3.
pub fn a_line_is_determined()
    ensures field { IsField nim × IsEndless ℕ × Apart {A = ℕ} (0 ∷ 1 ∷ []) }
    ensures takes { TakesSymbols (1 ∷ 2 ∷ []) (0 ∷ 1 ∷ []) (1 ∷ 3 ∷ []) }
    ensures interpolates { interpolate (0 ∷ 1 ∷ []) (1 ∷ 3 ∷ []) ≡ 1 ∷ 2 ∷ [] }
    ensures everywhere { (x : ℕ) → value (1 ∷ 2 ∷ 0 ∷ []) x ≡ value (1 ∷ 2 ∷ []) x }
    ensures trimmed { trim (1 ∷ 2 ∷ 0 ∷ []) ≡ trim (1 ∷ 2 ∷ []) }
    ensures divided { (x : ℕ) → value (1 ∷ 2 ∷ []) x ≡ nim_add (nim_mul 2 (value (1 ∷ 1 ∷ []) x)) 3 }
{}

/// The polynomial 1 of one coefficient takes the values 1, 1, 1, 2 at the points 0, 1, 2, 3 but for one, and
/// is near them. Euclid's algorithm comes in one step to the row of 1 + 2 x and its cofactor 1 + 2 x, with
/// the bound 2: it is between 1 + 1 and 4 - 1, though below half of 4 + 1. So the row is its cofactor times
/// the polynomial 1.
pub fn one_wrong_of_four_is_decoded()
    ensures bounds { (1 + 1 ≤ 2) × (2 + 1 ≤ 4) × ¬ (4 + 1 ≤ 2 * 2) × (1 + 2 * 1 ≤ 4) }
    ensures apart { Apart {A = ℕ} (0 ∷ 1 ∷ 2 ∷ 3 ∷ []) }
    ensures decodes { Decodes nim (0 ∷ 1 ∷ 2 ∷ 3 ∷ []) (1 ∷ 1 ∷ 1 ∷ 2 ∷ []) 1 1 (1 ∷ []) }
    ensures near { agree (1 ∷ []) (0 ∷ 1 ∷ 2 ∷ 3 ∷ []) (Some 1 ∷ Some 1 ∷ Some 1 ∷ Some 2 ∷ []) ≡ 3 }
    ensures row { FirstRow nim 2 (vanish (0 ∷ 1 ∷ 2 ∷ 3 ∷ [])) []
        (trim (interpolate (0 ∷ 1 ∷ 2 ∷ 3 ∷ []) (1 ∷ 1 ∷ 1 ∷ 2 ∷ [])))
        (1 ∷ []) (1 ∷ 2 ∷ []) (1 ∷ 2 ∷ []) }
    ensures key { IsKeyEquation nim (0 ∷ 1 ∷ 2 ∷ 3 ∷ []) (1 ∷ 1 ∷ 1 ∷ 2 ∷ []) 2 (1 ∷ 2 ∷ []) (1 ∷ 2 ∷ []) }
    ensures divides { (x : ℕ) → value (1 ∷ 2 ∷ []) x ≡ nim_mul (value (1 ∷ 2 ∷ []) x) (value (1 ∷ []) x) }
{}

/// The coefficients of a polynomial near a block of symbols are symbols, and so are those of one that is
/// accepted for symbols seen at points that are symbols and apart: it takes symbols at as many points as it
/// has coefficients.
pub fn coefficients_are_symbols()
    ensures near { (number : ℕ) (block p : List ℕ) → All is_symbol block
        → IsNear (profile_of number) block p → All is_symbol p }
    ensures accepted { (points : List ℕ) (seen : List (Option ℕ)) (l b : ℕ) (p : List ℕ) → Apart points
        → All is_symbol points →
        All (λ s. IfSome s is_symbol) seen → l + b ≤ length points → Accepts points seen l b p
        → All is_symbol p }
{}

/// An instance: 1 is near the block of six symbols 1 of the first profile, and is accepted for the symbols 1,
/// 1, 1, 2 at the points 0, 1, 2, 3 with one of degree 0 and one wrong.
pub fn ones_are_opened()
    ensures block { All is_symbol (1 ∷ 1 ∷ 1 ∷ 1 ∷ 1 ∷ 1 ∷ []) }
    ensures near { IsNear (profile_of 0) (1 ∷ 1 ∷ 1 ∷ 1 ∷ 1 ∷ 1 ∷ []) (1 ∷ []) }
    ensures points { Apart {A = ℕ} (0 ∷ 1 ∷ 2 ∷ 3 ∷ []) × All is_symbol (0 ∷ 1 ∷ 2 ∷ 3 ∷ []) }
    ensures seen { All (λ s. IfSome s is_symbol) (Some 1 ∷ Some 1 ∷ Some 1 ∷ Some 2 ∷ []) }
    ensures accepted { Accepts (0 ∷ 1 ∷ 2 ∷ 3 ∷ []) (Some 1 ∷ Some 1 ∷ Some 1 ∷ Some 2 ∷ []) 1 1 (1 ∷ []) }
{}
