//! What holds of every row.
ghost use Rattle.std.specs.Prelude.{◌≡◌, ◌≤◌, ◌<◌, ◌+◌, ◌*◌, ◌↔◌, ℕ, List, [], ◌∷◌, Option, Some, None, length};
ghost use Rattle.algebra_laws.specs.Field.{Apart};
ghost use Rattle.hail_field.specs.Shape.{IsShape};
ghost use Rattle.hail_field.specs.Nim.{nim};
ghost use Rattle.algebra_laws.specs.Poly.{Decodes};
ghost use Rattle.code_defs.specs.Polynomials.{trim, value};
ghost use Rattle.code_defs.specs.DispersalCode.{Accepts, AcceptsNone};
ghost use Rattle.dispersal_code.specs.Present.{present_points, present_symbols, room_for};

/// At most one polynomial is accepted: two have one value everywhere, and the same coefficients but for zeros
/// at the end.
pub fn accepted_polynomial_is_unique()
    ensures coefficients { (n l b : ℕ) (points : List ℕ) (seen : List (Option ℕ)) (p q : List ℕ)
        → IsShape n l b
        → Apart points → length points ≡ length seen → length seen ≡ n
        → Accepts points seen l b p → Accepts points seen l b q → trim p ≡ trim q }
    ensures values { (n l b : ℕ) (points : List ℕ) (seen : List (Option ℕ)) (p q : List ℕ) → IsShape n l b
        → Apart points → length points ≡ length seen → length seen ≡ n
        → Accepts points seen l b p → Accepts points seen l b q → (x : ℕ) → value p x ≡ value q x }
{}

/// A polynomial is accepted for a row of which m symbols are present exactly where it decodes these with m -
/// (n - b) of them wrong, and the rest are then more than l by as many again. Where fewer than n - b are
/// present, none is accepted.
pub fn present_symbols_decide()
    ensures room { (n l b m : ℕ) → IsShape n l b → m ≤ n → n ≤ m + b → l + 1 + 2 * room_for n b m ≤ m }
    ensures decided { (n l b : ℕ) (points : List ℕ) (seen : List (Option ℕ)) (p : List ℕ) → IsShape n l b
        → length points ≡ length seen → length seen ≡ n → n ≤ length (present_symbols seen) + b
        → Accepts points seen l b p
        ↔ Decodes nim (present_points points seen) (present_symbols seen) l
        (room_for n b (length (present_symbols seen))) p }
    ensures few { (n l b : ℕ) (points : List ℕ) (seen : List (Option ℕ)) → length points ≡ n
        → length (present_symbols seen) + b < n → AcceptsNone points seen l b }
{}

/// An instance: the polynomial 1 is accepted for the row 1, 1, 1, 2 of four providers at the points 0 to 3,
/// of which one may be wrong, and decodes its symbols with one of them wrong. For a row with two symbols
/// missing none is accepted.
pub fn one_is_accepted_of_four()
    ensures shape { IsShape 4 1 1 }
    ensures accepted { Accepts (0 ∷ 1 ∷ 2 ∷ 3 ∷ []) (Some 1 ∷ Some 1 ∷ Some 1 ∷ Some 2 ∷ []) 1 1 (1 ∷ []) }
    ensures decoded { Decodes nim (0 ∷ 1 ∷ 2 ∷ 3 ∷ []) (1 ∷ 1 ∷ 1 ∷ 2 ∷ []) 1 (room_for 4 1 4) (1 ∷ []) }
    ensures few { AcceptsNone (0 ∷ 1 ∷ 2 ∷ 3 ∷ []) (None ∷ None ∷ Some 1 ∷ Some 1 ∷ []) 1 1 }
{}
