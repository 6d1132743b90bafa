//! Who is counted in a round where few answers are not right.
ghost use Rattle.std.specs.Prelude.{◌≡◌, ◌<◌, ◌+◌, ℕ, List, [], ◌∷◌, Option, None, Some, map, length};
ghost use Rattle.hail_field.specs.Nim.{nim_add};
ghost use Rattle.column_defs.specs.Objects.{Object};
ghost use Rattle.column_defs.specs.Columns.{columns};
ghost use Rattle.column_defs.specs.Challenges.{Challenge, honest_answer, right_answer};
ghost use Rattle.column_defs.specs.Verdicts.{Sums, Judges};
ghost use Rattle.column_laws.specs.Example.{example};
ghost use Rattle.audit_verdict.specs.Rounds.{answer_of, HasFewWrong, DiffersOnce, count_of_provider};
ghost use Rattle.audit_verdict.specs.Example.{one_pick, three_heard};

/// The right answers to a challenge, with the mask sums taken off, are the values of one polynomial of degree
/// below `l`.
pub use aggregate::laws::right_answers_are_a_row;

/// A round in which at most `b` answers are not right is decided.
pub fn rounds_with_few_wrong_answers_are_decided()
    ensures { (o : Object) (bytes : List ℕ) (c : Challenge) (heard : List (Option ℕ)) (old new : Sums) →
        HasFewWrong o bytes c heard → Judges o c heard old new → new.undecided ≡ old.undecided }
{}

/// In such a round a provider whose answer is right is not counted.
pub fn right_answers_are_not_counted()
    ensures { (o : Object) (bytes : List ℕ) (c : Challenge) (heard : List (Option ℕ)) (old new : Sums)
        (j : ℕ) →
        HasFewWrong o bytes c heard → length old.counts ≡ o.shape.n → Judges o c heard old new
        → j < o.shape.n →
        answer_of heard j ≡ right_answer o bytes j c → count_of_provider new j ≡ count_of_provider old j }
{}

/// In such a round a provider is counted whose answer is absent, or is honest over blocks of which exactly
/// one pick falls on a symbol that differs from the provider's own.
pub fn wrong_answers_are_counted()
    ensures absent { (o : Object) (bytes : List ℕ) (c : Challenge) (heard : List (Option ℕ))
        (old new : Sums) (j : ℕ) →
        HasFewWrong o bytes c heard → length old.counts ≡ o.shape.n → Judges o c heard old new
        → j < o.shape.n →
        answer_of heard j ≡ None → count_of_provider new j ≡ count_of_provider old j + 1 }
    ensures differing { (o : Object) (bytes : List ℕ) (c : Challenge) (heard : List (Option ℕ))
        (held : ℕ → Option (List ℕ))
        (old new : Sums) (j : ℕ) →
        HasFewWrong o bytes c heard → length old.counts ≡ o.shape.n → Judges o c heard old new
        → j < o.shape.n →
        answer_of heard j ≡ honest_answer c held → DiffersOnce o bytes j c held →
        count_of_provider new j ≡ count_of_provider old j + 1 }
{}

/// An instance, for each master key and file: to a challenge of one pick three of four providers answer
/// rightly and the fourth does not answer. It is decided, and the fourth counts. Blocks that are off by 1
/// everywhere differ in that one pick.
pub fn one_absent_answer_of_four_counts()
    ensures few { (master bytes : List ℕ) →
        HasFewWrong (example master) bytes (one_pick master bytes) (three_heard master bytes) }
    ensures judged { (master bytes : List ℕ)
        → Judges (example master) (one_pick master bytes) (three_heard master bytes)
        (record { counts = 0 ∷ 0 ∷ 0 ∷ 0 ∷ []; undecided = 0 })
        (record { counts = 0 ∷ 0 ∷ 0 ∷ 1 ∷ []; undecided = 0 }) }
    ensures differs { (master bytes : List ℕ) → DiffersOnce (example master) bytes 3 (one_pick master bytes)
        (λ stripe. Some (map (nim_add 1) (columns (example master) bytes 3 stripe))) }
{}
