//! Laws on lists, of fields of characteristic two, and of polynomials over them.
ghost use Rattle.std.specs.Prelude.{◌≡◌, ◌≢◌, ◌<◌, ℕ, List, length, Some, slice_get, slice_set, ◌≤◌, ◌+◌, ◌*◌, [], ◌∷◌, Option, map, get_or};
ghost use Rattle.algebra_laws.specs.Field.{FieldOf, IsField, IsEndless, Apart};
ghost use Rattle.algebra_laws.specs.Poly.{value, plus, times, vanish, interpolate, Takes, agree, trim, quotient, remainder, Decodes, FirstRow};
ghost use Rattle.algebra_laws.specs.Rows.{IsKeyEquation};
ghost use Rattle.algebra_laws.specs.Sums.{sum_below, power};

/// What is set at a place of a list stands there, and the rest stands as before.
pub fn one_place_is_set<T>()
    ensures here { (xs : List T) (place : ℕ) (x : T) → place < length xs
        → slice_get (slice_set xs place x) place ≡ Some x }
    ensures others { (xs : List T) (place other : ℕ) (x : T) → other ≢ place
        → slice_get (slice_set xs place x) other ≡ slice_get xs other }
{}

/// Two elements whose sum is 0 are equal.
pub fn sum_is_zero_at_equals<T>()
    ensures { (F : FieldOf T) → IsField F → (x y : T) → F.add x y ≡ F.zero → x ≡ y }
{}

/// A product is 0 only where a factor is.
pub fn product_is_zero_at_a_zero<T>()
    ensures { (F : FieldOf T) → IsField F → (x y : T) → F.mul x y ≡ F.zero → x ≢ F.zero → y ≡ F.zero }
{}

/// What times `x` gives 1 is the inverse of `x`, and no other element.
pub fn inverse_is_one_element<T>()
    ensures { (F : FieldOf T) → IsField F → (x y : T) → F.mul x y ≡ F.one → y ≡ F.inv x }
{}

/// The value at x is the sum of p[i] * x^i over the places i of p.
pub fn value_is_sum_of_terms<T>()
    ensures { (F : FieldOf T) → IsField F → (p : List T) (x : T) →
        value F p x ≡ sum_below F (λ i. F.mul (get_or p i F.zero) (power F x i)) (length p) }
{}

/// The value of a sum is the sum of the values, and that of a product their product.
pub fn values_are_homomorphic<T>()
    ensures sum { (F : FieldOf T) → IsField F → (p q : List T) (x : T)
        → value F (plus F p q) x ≡ F.add (value F p x) (value F q x) }
    ensures product { (F : FieldOf T) → IsField F → (p q : List T) (x : T)
        → value F (times F p q) x ≡ F.mul (value F p x) (value F q x) }
{}

/// Over a field of infinitely many elements, polynomials of one value everywhere are one.
pub fn values_determine_polynomial<T>()
    ensures { (F : FieldOf T) → IsField F → IsEndless T → (p q : List T)
        → ((x : T) → value F p x ≡ value F q x) → trim F p ≡ trim F q }
{}

/// At most one polynomial of degree below K takes K values at K points that are apart.
pub fn at_most_one_takes_values<T>()
    ensures { (F : FieldOf T) → IsField F → (points values p q : List T) → Apart points
        → length points ≡ length values →
        length p ≤ length points → Takes F p points values → length q ≤ length points
        → Takes F q points values →
        trim F p ≡ trim F q }
{}

/// The interpolating polynomial, of degree below K, takes K values at K points that are apart.
pub fn one_takes_values<T>()
    ensures degree { (F : FieldOf T) → IsField F → (points values : List T) → length points ≡ length values →
        length (interpolate F points values) ≡ length points }
    ensures takes { (F : FieldOf T) → IsField F → (points values : List T) → length points ≡ length values
        → Apart points →
        Takes F (interpolate F points values) points values }
{}

/// Two polynomials of degree below `keep` that each agree with a word of N places, some of them absent, at N
/// - `wrong` places are one, if N - 2 `wrong` is `keep` or more.
pub fn at_most_one_is_near<T>()
    ensures { (F : FieldOf T) → IsField F → (points p q : List T) (seen : List (Option T)) (keep wrong : ℕ)
        → Apart points →
        length seen ≡ length points → keep + 2 * wrong ≤ length points →
        length p ≤ keep → length points ≤ agree F p points seen + wrong →
        length q ≤ keep → length points ≤ agree F q points seen + wrong →
        trim F p ≡ trim F q }
{}

/// Division with remainder, by a polynomial of degree `m`: what it gives makes up the dividend, and the
/// remainder has degree below `m`.
pub fn division_gives_dividend_back<T>()
    ensures dividend { (F : FieldOf T) → IsField F → (p d : List T) (m : ℕ) → length d ≡ m + 1
        → get_or d m F.zero ≢ F.zero → (x : T) →
        let w = F.inv (get_or d m F.zero) in
        value F p x ≡ F.add (F.mul (value F (quotient F d m w p) x) (value F d x))
        (value F (remainder F d m w p) x) }
    ensures degree { (F : FieldOf T) → IsField F → (p d : List T) (m : ℕ) (w : T)
        → length (remainder F d m w p) ≤ m }
{}

/// The first row of Euclid's algorithm, on the product of all x + point and the interpolating polynomial, of
/// degree below `below`: its degrees, its equation, and that its cofactor is not 0.
pub fn first_row_solves_key_equation<T>()
    ensures { (F : FieldOf T) → IsField F → IsEndless T → (points values r f : List T) (below : ℕ)
        → Apart points →
        length points ≡ length values → below ≤ length points →
        FirstRow F below (vanish F points) [] (trim F (interpolate F points values)) (F.one ∷ []) r f →
        IsKeyEquation F points values below r f }
{}

/// 'Divide, look at the degree, count' is exact: where a polynomial of degree below `keep` takes all values
/// but `fix`, it is the one quotient of the first row by its cofactor. So where there is no quotient, or one
/// of a higher degree or that agrees too seldom, no polynomial does. Each bound `below` from `fix + keep` to
/// N - `fix` serves.
pub fn quotient_of_first_row_decodes<T>()
    ensures divides { (F : FieldOf T) → IsField F → IsEndless T
        → (points values r f p : List T) (keep fix below : ℕ) → Apart points →
        length points ≡ length values → fix + keep ≤ below → below + fix ≤ length points → 0 < keep →
        FirstRow F below (vanish F points) [] (trim F (interpolate F points values)) (F.one ∷ []) r f →
        Decodes F points values keep fix p →
        (x : T) → value F r x ≡ F.mul (value F f x) (value F p x) }
    ensures only { (F : FieldOf T) → IsField F → IsEndless T
        → (points values r f p q : List T) (keep fix below : ℕ) → Apart points →
        length points ≡ length values → fix + keep ≤ below → below + fix ≤ length points → 0 < keep →
        FirstRow F below (vanish F points) [] (trim F (interpolate F points values)) (F.one ∷ []) r f →
        Decodes F points values keep fix p →
        ((x : T) → value F r x ≡ F.mul (value F f x) (value F q x)) →
        trim F q ≡ trim F p }
{}
