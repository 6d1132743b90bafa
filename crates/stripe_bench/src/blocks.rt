ghost use Rattle.std.specs.Prelude.{◌≡◌, ◌+◌, ◌<◌, ◌≤◌, ◌^◌, ◌++◌, ℕ, All, Bool, List, Some, None, length, take, drop, replicate, vec_len, vec_capacity, if◌then◌else◌};
ghost use Rattle.device_defs.specs.Faults.{one_more};
ghost use Rattle.device_defs.specs.ProviderCalls.{Fetches};
ghost use Rattle.provider_model.specs.Seen.{provider_seen};

use hail_field::Symbol;
use hail_field::laws::symbols_are_numbers;
use provider_model::Provider;

/// Blocks that were fetched, one after the other, each with whether the provider gave it.
#[derive(Drop)]
pub struct Blocks {
    pub present: Vec<bool>,
    pub symbols: Vec<Symbol>,
    /// How many symbols a block has.
    pub size: usize,
    pub ghost fits: { (1 ≤ size) × (size ≤ 128) },
}

/// Fetches a block into the symbols from `start` on, and tells whether the provider gave it.
fn fetch_into<P: Provider>(
    from: &mut P,
    object: u64,
    stripe: u32,
    all: &mut [Symbol],
    start: usize,
) -> bool
    requires within { start ≤ length all.old }
    requires some { start + 1 ≤ length all.old }
    requires few { length all.old ≤ start + 128 }
    ensures front { take start all.new ≡ take start all.old }
    ensures fetched { Fetches (length (drop start all.old)) object stripe (provider_seen P.Provider from.old)
        (if result then Some (drop start all.new) else None) (provider_seen P.Provider from.new) }
    ensures numbers { All (λ symbol. symbol < 2 ^ 128) (drop start all.new) }
    ensures called { P.calls from.new ≡ one_more (P.calls from.old) }
{
    let out = &mut all[start..];
    let found = match from.fetch(object, stripe, out) {
        Ok(found) => found,
        Err(_) => false,
    };
    symbols_are_numbers(out);
    found
}

/// Puts so many zeros at the end, for which there is room.
fn push_zeros(symbols: &mut Vec<Symbol>, count: usize)
    requires { vec_len symbols.old + count ≤ vec_capacity symbols.old }
    ensures zeros { symbols.new.items ≡ symbols.old.items ++ replicate count 0 }
    ensures capacity { vec_capacity symbols.old ≤ vec_capacity symbols.new }
{
    for _ in 0..count {
        symbols.push_reserved(Symbol::ZERO);
    }
}

impl Blocks {
    ghost use Rattle.stripe_bench.specs.Blocks.{given_of, Grows, HasRoom};

    /// Fetches one block more, for which there is room.
    pub fn fetch<P: Provider>(&mut self, from: &mut P, object: u64, stripe: u32)
        requires { HasRoom self.old }
        ensures fetched { (found : Bool) × (block : List ℕ) × Grows self.old self.new found block
            × Fetches self.old.size object stripe (provider_seen P.Provider from.old)
            (given_of found block) (provider_seen P.Provider from.new) }
        ensures called { P.calls from.new ≡ one_more (P.calls from.old) }
    {
        let start = self.symbols.len();
        push_zeros(&mut self.symbols, self.size);
        let found = fetch_into(from, object, stripe, &mut self.symbols, start);
        self.present.push_reserved(found);
    }
}
