//! Laws of answers.
ghost use Rattle.std.specs.Prelude.{◌≡◌, ◌≤◌, ℕ, List};
ghost use Rattle.column_defs.specs.Objects.{Object};
ghost use Rattle.column_defs.specs.Challenges.{Challenge};
ghost use Rattle.aggregate.specs.RightAnswers.{IsRightRow};

/// The right answers to a challenge, with the mask sums taken off, are the values of one polynomial of degree
/// below `l`.
pub fn right_answers_are_a_row()
    ensures { (o : Object) (bytes : List ℕ) (c : Challenge) → 1 ≤ c.size → c.size ≡ o.profile.size →
        (p : List ℕ) × IsRightRow o bytes c p }
{}
