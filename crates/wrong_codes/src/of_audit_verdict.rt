//! Bodies of audit_verdict's public functions, for its must-fail edits to spoil.
ghost use Rattle.std.specs.Prelude.{◌≡◌, ◌≤◌, ◌<◌, ◌*◌, ◌^◌, ℕ, length, slice_index};
ghost use Rattle.column_defs.specs.Objects.{stripes};
ghost use Rattle.column_defs.specs.Challenges.{challenge_of};
ghost use Rattle.column_defs.specs.Verdicts.{Judges};
ghost use Rattle.file_layout.specs.Files.{shaped_object};
ghost use Rattle.audit_verdict.specs.Rounds.{sums_of};

use file_layout::FileShape;
use hail_field::Symbol;
use hail_poly::Work;
use key_schedule::Master;
use record_codec::Counts;

/// `judge_round`.
pub fn judge_round(
    master: &Master,
    file: &FileShape,
    number: u64,
    round: u32,
    picks: u32,
    heard: &[Option<Symbol>],
    counts: &mut Counts,
    undecided: &mut u32,
    work: &mut Work,
)
    requires rows { 1 ≤ stripes (shaped_object master.now.0 file.now) file.now.length *
        file.now.profile.size }
    requires some_picks { 1 ≤ picks }
    requires few_picks { picks ≤ 64 }
    requires heard { length heard.now ≡ file.now.shape.n }
    requires counts { counts.old.n ≡ file.now.shape.n }
    requires small { (j : ℕ) → slice_index counts.old.by j < 2 ^ 31 }
    requires few { undecided.old < 2 ^ 31 }
    requires room { 16 ≤ work.old.size }
    ensures judged { Judges (shaped_object master.now.0 file.now)
        (challenge_of (shaped_object master.now.0 file.now) file.now.length picks number round) heard.now
        (sums_of counts.old undecided.old) (sums_of counts.new undecided.new) }
{
    audit_verdict::judge_round(
        master, file, number, round, picks, heard, counts, undecided, work,
    );
}
