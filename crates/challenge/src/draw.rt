ghost use Rattle.std.specs.Prelude.{◌≡◌, ◌≤◌, ◌<◌, ◌^◌, ◌*◌, ◌+◌, ◌%◌, ◌==◌, ℕ, slice_index, if◌then◌else◌};
ghost use Rattle.column_defs.specs.Challenges as spec;
ghost use Rattle.challenge.specs.Rows.{next_number, next_rows};
ghost use Rattle.column_defs.specs.Generator.{next_symbol, moved_on};

use crate::drawn::Drawn;
use crate::question::Challenge;
use hail_field::Symbol;
use rand_chacha::ChaCha20Rng;
use rand_core::SeedableRng;
use rand_core::utils::NextWord;

// The symbol of the next four words, the first word lowest.
fn next_symbol(rng: &mut ChaCha20Rng) -> Symbol
    requires { rng.old.word_pos + 4 < 2 ^ 68 }
    ensures value { result ≡ next_symbol rng.old }
    ensures place { rng.new ≡ moved_on rng.old 4 }
{
    let first = rng.next_word();
    let second = rng.next_word();
    let third = rng.next_word();
    let fourth = rng.next_word();
    Symbol(
        u128::from(first)
            + u128::from(second) * (1 << 32)
            + u128::from(third) * (1 << 64)
            + u128::from(fourth) * (1 << 96),
    )
}

// The weight of a symbol: 1 in place of 0.
fn weight_of(symbol: Symbol) -> Symbol
    ensures { result ≡ (if symbol == 0 then 1 else symbol) }
{
    if symbol == Symbol::ZERO {
        Symbol::ONE
    } else {
        symbol
    }
}

// The row, of so many, that the number of the next two words falls on, the low one first.
fn next_row(rng: &mut ChaCha20Rng, rows: u64) -> u64
    requires place { rng.old.word_pos + 2 < 2 ^ 68 }
    requires some { 1 ≤ rows }
    ensures value { result ≡ next_number rng.old % rows }
    ensures within { result < rows }
    ensures place { rng.new ≡ moved_on rng.old 2 }
{
    let low = rng.next_word();
    let high = rng.next_word();
    (u64::from(low) + u64::from(high) * (1 << 32)) % rows
}

// The rows, of so many, that the numbers of so many picks fall on, and zeros behind them.
fn draw_rows(rng: &mut ChaCha20Rng, rows: u64, picks: u32) -> [u64; 64]
    requires place { rng.old.word_pos + 2 * picks < 2 ^ 68 }
    requires some { 1 ≤ rows }
    requires few { picks ≤ 64 }
    ensures { (k : ℕ) → k < picks → slice_index result k ≡ next_rows rng.old rows k }
{
    let mut drawn = [0; 64];
    for k in 0..picks as usize {
        drawn[k] = next_row(rng, rows);
    }
    drawn
}

impl Challenge {
    /// The challenge with its weight and rows, read off one generator of ChaCha20 (RFC 8439).
    pub fn draw(&self) -> Drawn
        ensures { result.challenge ≡ self.now }
    {
        let mut rng = ChaCha20Rng::from_seed(self.seed);
        let weight = weight_of(next_symbol(&mut rng));
        Drawn {
            challenge: *self,
            weight,
            rows: draw_rows(&mut rng, self.rows, self.picks),
        }
    }

    /// The weight of the challenge: the symbol of the words 0 to 3, the first word lowest, and 1 if these are
    /// all 0.
    pub fn alpha(&self) -> Symbol
        ensures { result ≡ spec.alpha self.now.seed }
    {
        self.draw().weight
    }

    /// The row of pick `k`, below `rows`: the number of the words `4 + 2 * k`, the low one, and `5 + 2 * k`,
    /// modulo `rows`.
    pub fn row(&self, k: u32) -> u64
        requires { k < self.now.picks }
        ensures value { result ≡ spec.picked_row self.now.seed self.now.rows k }
        ensures within { result < self.now.rows }
    {
        self.draw().rows[k as usize]
    }
}
