ghost use Rattle.std.specs.Prelude.{◌≡◌, ◌↔◌, IsSome, IfSome};
ghost use Rattle.hail_field.specs.Shape.{IsShape};

/// How a row of symbols is spread: over `n` providers, 4 to 16, of which the first `l` hold the row's own
/// symbols, and of which `b` may be wrong, with `l + 2 b + 1 <= n`.
#[derive(Clone, Copy, Debug, PartialEq, Eq)]
pub struct Shape {
    pub n: u8,
    pub l: u8,
    pub b: u8,
    ghost fits: { IsShape n l b },
}

impl Shape {
    /// The shape with these numbers; none exactly where they are outside the limits.
    pub fn new(n: u8, l: u8, b: u8) -> Option<Shape>
        ensures fits { IsSome result ↔ IsShape n l b }
        ensures value { IfSome result (λ shape. (shape.n ≡ n) × (shape.l ≡ l) × (shape.b ≡ b)) }
    {
        let (wide_n, wide_l, wide_b) = (u32::from(n), u32::from(l), u32::from(b));
        if n >= 4 && n <= 16 && l >= 1 && b >= 1 && wide_l + 2 * wide_b + 1 <= wide_n {
            Some(Shape { n, l, b })
        } else {
            None
        }
    }
}
