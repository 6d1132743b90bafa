//! What pins the results of a division and of Euclid's algorithm, and what interpolation gives back.
ghost use Rattle.std.specs.Prelude.{◌≡◌, ◌≤◌, ℕ, List, length, take};
ghost use Rattle.algebra_laws.specs.Field.{Apart};
ghost use Rattle.code_defs.specs.Points.{values_at};
ghost use Rattle.code_defs.specs.Polynomials.{value, interpolate, trim};
ghost use Rattle.hail_poly.specs.Quotient.{IsDivision};

/// A division has one quotient and one remainder.
pub fn division_is_unique()
    ensures quotient { (p d q r s t : List ℕ) → d ≡ trim d → IsDivision p d q r → IsDivision p d s t → q ≡ s }
    ensures remainder { (p d q r s t : List ℕ) → d ≡ trim d → IsDivision p d q r → IsDivision p d s t
        → r ≡ t }
{}

/// A polynomial of degree below `l` is the one that interpolation makes of its values at the first `l`
/// points.
pub fn interpolation_gives_polynomial_back()
    ensures coefficients { (points p : List ℕ) (l : ℕ) → Apart points → length p ≤ l → l ≤ length points
        → trim (interpolate (take l points) (values_at (take l points) p)) ≡ trim p }
    ensures values { (points p : List ℕ) (l : ℕ) → Apart points → length p ≤ l → l ≤ length points
        → (x : ℕ) → value (interpolate (take l points) (values_at (take l points) p)) x ≡ value p x }
{}
