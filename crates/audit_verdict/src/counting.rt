ghost use Rattle.std.specs.Prelude.{◌≡◌, ◌<◌, ◌+◌, ◌^◌, ℕ, length, slice_index, if◌then◌else◌};
ghost use Rattle.code_defs.specs.Polynomials.{is_seen};
ghost use Rattle.column_defs.specs.Verdicts.{counts_after};

use hail_field::Symbol;
use hail_poly::Work;

/// A count, with one more where the answer is absent or is not the value.
#[tactic(auto, unfolding(algebra_laws::specs::Poly::is_seen))]
fn counted_once(answer: Option<Symbol>, value: Symbol, count: u32) -> u32
    requires { count < 2 ^ 31 }
    ensures { result ≡ (if is_seen value answer then count else count + 1) }
{
    match answer {
        Some(symbol) => { if symbol == value { count } else { count + 1 } }
        None => count + 1,
    }
}

/// Counts each provider whose answer is absent or is not the value, at its point, of the rest of `work`.
pub fn count_wrong(work: &Work, points: &[Symbol], answers: &[Option<Symbol>], counts: &mut [u32])
    requires answers { length answers.now ≡ length points.now }
    requires counts { length counts.old ≡ length points.now }
    requires small { (j : ℕ) → slice_index counts.old j < 2 ^ 31 }
    ensures { counts.new ≡ counts_after work.now.rest points.now answers.now counts.old }
{
    for j in 0..points.len() {
        counts[j] = counted_once(answers[j], work.value(points[j]), counts[j]);
    }
}
