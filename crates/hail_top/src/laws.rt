//! What follows from the definition of an answer to `row`.
ghost use Rattle.std.specs.Prelude.{◌≡◌, ◌⊎◌, ◌<◌, ℕ, List, Option, length};
ghost use Rattle.hail_field.specs.Shape.{IsShape};
ghost use Rattle.device_defs.specs.Faults.{last_count};
ghost use Rattle.code_defs.specs.Points.{upto, values_at};
ghost use Rattle.code_defs.specs.DispersalCode.{Accepts};
ghost use Rattle.command_defs.specs.Line.{values_line};
ghost use Rattle.command_defs.specs.Sinking.{Sinking};
ghost use Rattle.command_defs.specs.Row.{AnswersRow};

use dispersal_code::laws::accepted_polynomial_is_unique;

/// At most one line is right for a row: whichever accepted polynomial it is written from.
pub fn row_has_one_line()
    ensures { (n l b : ℕ) (seen : List (Option ℕ)) (p q : List ℕ) → IsShape n l b → length seen ≡ n
        → Accepts (upto n) seen l b p → Accepts (upto n) seen l b q
        → values_line (values_at (upto l) p) ≡ values_line (values_at (upto l) q) }
{
    accepted_polynomial_is_unique();
}

/// A row with an accepted polynomial is answered with status 0, or with that of no memory, where the sink's
/// count of faults stands still below its last value.
pub fn row_answer_is_complete()
    ensures { (n l b : ℕ) (seen : List (Option ℕ)) (p : List ℕ) (status : ℕ) (sink : Sinking)
        → IsShape n l b → Accepts (upto n) seen l b p → AnswersRow n l b seen status sink
        → sink.before < last_count → sink.now ≡ sink.before → (status ≡ 0) ⊎ (status ≡ 70) }
{}
