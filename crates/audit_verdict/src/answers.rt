ghost use Rattle.std.specs.Prelude.{◌≡◌, ◌≤◌, ◌<◌, ◌*◌, length};
ghost use Rattle.column_defs.specs.Objects.{stripes, points as points_of};
ghost use Rattle.column_defs.specs.Challenges.{challenge_of, bare_answer as bare_answer_of, bare_answers as bare_answers_of};
ghost use Rattle.file_layout.specs.Files.{shaped_object};
ghost use Rattle.challenge.specs.Asked.{asked};

use aggregate::mask_sum_drawn;
use challenge::{Challenge, Drawn};
use file_layout::FileShape;
use hail_field::Symbol;
use key_schedule::{Master, file_key, point, seed};

/// The challenge of a round of audit `number` to a file, which must have a row (`FileShape::rows`).
pub fn round_challenge(
    master: &Master,
    file: &FileShape,
    number: u64,
    round: u32,
    picks: u32,
) -> Challenge
    requires rows { 1 ≤ stripes (shaped_object master.now.0 file.now) file.now.length *
        file.now.profile.size }
    requires some_picks { 1 ≤ picks }
    requires few_picks { picks ≤ 64 }
    ensures { asked result ≡ challenge_of (shaped_object master.now.0 file.now) file.now.length picks number
        round }
{
    Challenge {
        seed: seed(master, number, file.id, round),
        rows: file.rows(),
        size: file.profile.size,
        picks,
    }
}

/// Fills `out` with the points of a file's providers.
pub fn points_into(master: &Master, file: &FileShape, out: &mut [Symbol])
    requires { length out.old ≡ file.now.shape.n }
    ensures { out.new ≡ points_of (shaped_object master.now.0 file.now) }
{
    let l = u32::from(file.shape.l);
    for j in 0..out.len() {
        out[j] = point(master, l, file.id, j as u32);
    }
}

/// The answer of a provider with its mask sum taken off, which a primary one has none of.
fn bare_answer(
    master: &Master,
    file: &FileShape,
    drawn: &Drawn,
    provider: u32,
    answer: Option<Symbol>,
) -> Option<Symbol>
    ensures { result ≡ bare_answer_of (shaped_object master.now.0 file.now) (asked drawn.now.challenge)
        provider answer }
{
    if provider < u32::from(file.shape.l) {
        return answer;
    }
    let key = file_key(master, b'M', file.id, provider);
    match answer {
        Some(symbol) => Some(symbol.add(mask_sum_drawn(&key, drawn))),
        None => None,
    }
}

/// Fills `out` with the answers of all providers, to a challenge that was drawn, with their mask sums taken
/// off.
pub fn bare_answers_into(
    master: &Master,
    file: &FileShape,
    drawn: &Drawn,
    heard: &[Option<Symbol>],
    out: &mut [Option<Symbol>],
)
    requires few { length heard.now ≤ 16 }
    requires out { length out.old ≡ length heard.now }
    ensures { out.new ≡ bare_answers_of (shaped_object master.now.0 file.now) (asked drawn.now.challenge) 0
        heard.now }
{
    for j in 0..heard.len() {
        out[j] = bare_answer(master, file, drawn, j as u32, heard[j]);
    }
}
