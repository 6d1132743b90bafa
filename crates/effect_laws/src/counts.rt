//! How many providers are named.
ghost use Rattle.std.specs.Prelude.{◌≤◌, ◌==◌, ◌||◌, ◌+◌, ℕ, Bool, List, length};
ghost use Rattle.code_defs.specs.Points.{upto};
ghost use Rattle.column_defs.specs.Forgeries.{count_of};
ghost use Rattle.effect_laws.specs.Counts.{is_among};

/// Of n providers one counts as one at most, those in a list as its length at most, and those of two kinds as
/// both at most.
pub fn named_providers_are_few()
    ensures one { (n j : ℕ) → count_of (λ k. k == j) (upto n) ≤ 1 }
    ensures list { (n : ℕ) (ps : List ℕ) → count_of (is_among ps) (upto n) ≤ length ps }
    ensures either { (n : ℕ) (p q : ℕ → Bool) →
        count_of (λ k. p k || q k) (upto n) ≤ count_of p (upto n) + count_of q (upto n) }
{}
