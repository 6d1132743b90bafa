ghost use Rattle.std.specs.Prelude.{◌≡◌, ◌≤◌, ◌<◌, ◌+◌, ◌*◌, ◌^◌, ℕ, drop, length, slice_index};
ghost use Rattle.column_defs.specs.Objects.{stripes};
ghost use Rattle.column_defs.specs.Challenges.{challenge_of};
ghost use Rattle.column_defs.specs.Verdicts.{Judges};
ghost use Rattle.file_layout.specs.Files.{shaped_object};
ghost use Rattle.record_codec.specs.Entries.{IsPadded};
ghost use Rattle.audit_verdict.specs.Rounds.{sums_of};

use crate::answers::{bare_answers_into, points_into, round_challenge};
use crate::counting::count_wrong;
use dispersal_code::open_row;
use file_layout::FileShape;
use hail_field::Symbol;
use hail_poly::Work;
use key_schedule::Master;
use record_codec::Counts;

/// Adds a round of audit `number` to `counts` and `undecided`. `heard` has what the providers answered to the
/// challenge of the round, which picks `picks` rows of the file. Where a polynomial of degree below `l`
/// agrees with all but `b` of the answers without their mask sums, each provider whose answer is absent or
/// does not agree counts one more; else the round is one more undecided one, and nobody counts. What stands
/// behind the counts of the `n` providers stays. The file must have a row (`FileShape::rows`). It takes no
/// memory. A count that passes a threshold tells whom to rebuild (Bowers, Juels and Oprea, HAIL, 2009); the
/// rule of the verdict is this project's own.
pub fn judge_round(
    master: &Master,
    file: &FileShape,
    number: u64,
    round: u32,
    picks: u32,
    heard: &[Option<Symbol>],
    counts: &mut Counts,
    undecided: &mut u32,
    work: &mut Work,
)
    requires rows { 1 ≤ stripes (shaped_object master.now.0 file.now) file.now.length *
        file.now.profile.size }
    requires some_picks { 1 ≤ picks }
    requires few_picks { picks ≤ 64 }
    requires heard { length heard.now ≡ file.now.shape.n }
    requires counts { counts.old.n ≡ file.now.shape.n }
    requires small { (j : ℕ) → slice_index counts.old.by j < 2 ^ 31 }
    requires few { undecided.old < 2 ^ 31 }
    requires room { 16 ≤ work.old.size }
    ensures judged { Judges (shaped_object master.now.0 file.now)
        (challenge_of (shaped_object master.now.0 file.now) file.now.length picks number round) heard.now
        (sums_of counts.old undecided.old) (sums_of counts.new undecided.new) }
    ensures n { counts.new.n ≡ counts.old.n }
    ensures behind { drop counts.old.n counts.new.by ≡ drop counts.old.n counts.old.by }
    ensures padded { IsPadded counts.old → IsPadded counts.new }
    ensures counts { (j : ℕ) → slice_index counts.new.by j ≤ slice_index counts.old.by j + 1 }
    ensures undecided { undecided.new ≤ undecided.old + 1 }
    ensures room { work.new.size ≡ work.old.size }
{
    let n = heard.len();
    let mut all_points = [Symbol::ZERO; 16];
    let points = &mut all_points[..n];
    points_into(master, file, points);
    let drawn = round_challenge(master, file, number, round, picks).draw();
    let mut all_answers = [None; 16];
    let answers = &mut all_answers[..n];
    bare_answers_into(master, file, &drawn, heard, answers);
    match open_row(points, answers, file.shape, work) {
        Some(()) => {
            let mut by = counts.by;
            count_wrong(work, points, answers, &mut by[..n]);
            counts.by = by;
        }
        None => *undecided += 1,
    }
}
