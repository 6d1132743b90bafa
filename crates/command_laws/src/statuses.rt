//! With which statuses commands end, and a row with its causes.
ghost use Rattle.std.specs.Prelude.{◌≡◌, ◌≢◌, ◌⊎◌, ℕ, true, List, Option};
ghost use Rattle.hail_field.specs.Shape.{IsShape};
ghost use Rattle.code_defs.specs.Points.{upto};
ghost use Rattle.code_defs.specs.DispersalCode.{AcceptsNone};
ghost use Rattle.command_defs.specs.Forms.{Command, RowOf};
ghost use Rattle.command_defs.specs.Seen.{Seen, Ending};
ghost use Rattle.command_defs.specs.Commands.{Answers};
ghost use Rattle.command_laws.specs.After.{is_ending};

/// A command whose words have a form ends with 0, 3, 4, 6 to 18, 20 to 24, 26 or 70; so 2 comes only of words
/// that have none.
pub fn commands_end_with_a_status()
    ensures ending { (command : Command) (old new : Seen) (end : Ending) → Answers command old new end
        → is_ending end.status ≡ true }
    ensures no_usage { (command : Command) (old new : Seen) (end : Ending) → Answers command old new end
        → end.status ≢ 2 }
{}

/// A row ends with 20 only where its numbers are no shape, and with 4 only where they are one and no
/// polynomial is accepted; and where it is so it ends with that status, or finds no memory.
pub fn rows_have_causes()
    ensures no_shape_only { (n l b : ℕ) (seen : List (Option ℕ)) (old new : Seen) (end : Ending)
        → Answers (RowOf n l b seen) old new end →
        end.status ≡ 20 → IsShape n l b → ⊥ }
    ensures no_shape { (n l b : ℕ) (seen : List (Option ℕ)) (old new : Seen) (end : Ending)
        → Answers (RowOf n l b seen) old new end →
        (IsShape n l b → ⊥) → (end.status ≡ 20) ⊎ (end.status ≡ 70) }
    ensures lost_only { (n l b : ℕ) (seen : List (Option ℕ)) (old new : Seen) (end : Ending)
        → Answers (RowOf n l b seen) old new end →
        end.status ≡ 4 → IsShape n l b × AcceptsNone (upto n) seen l b }
    ensures lost { (n l b : ℕ) (seen : List (Option ℕ)) (old new : Seen) (end : Ending)
        → Answers (RowOf n l b seen) old new end →
        IsShape n l b → AcceptsNone (upto n) seen l b → (end.status ≡ 4) ⊎ (end.status ≡ 70) }
{}
