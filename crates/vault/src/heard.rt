ghost use Rattle.std.specs.Prelude.{◌≤◌, ◌^◌, length};

use hail_field::Symbol;
use std::marker::Model;
use stripe_bench::Blocks;

/// What a job heard in one step.
#[derive(Clone, Copy)]
pub enum Heard<'a> {
    /// What a fetch of a get gave: the block, or none.
    Fetched {
        job: u32,
        provider: u32,
        object: u64,
        stripe: u32,
        block: Option<&'a [Symbol]>,
    },
    /// What an ask of an audit gave: the answer, or none.
    Answered {
        job: u32,
        provider: u32,
        object: u64,
        round: u32,
        symbol: Option<Symbol>,
    },
}

/// Which answer an ask was for.
#[derive(Clone, Copy)]
pub struct Ask {
    pub provider: u32,
    pub object: u64,
    pub round: u32,
}

/// What the fetches of a get gave, which are of one object: stripe by stripe, one from each of the `n`
/// providers in order.
#[derive(Drop)]
pub struct Fetches {
    pub job: u32,
    pub object: u64,
    pub n: u8,
    pub blocks: Blocks,
    pub ghost some: { 1 ≤ n },
    pub ghost few: { length blocks.present.items ≤ 2 ^ 32 },
}

/// The asks of an audit, in order, and what they gave.
#[derive(Drop)]
pub struct Answers {
    pub job: u32,
    pub asks: Vec<Ask>,
    pub symbols: Vec<Option<Symbol>>,
}

#[derive(Drop)]
pub enum Parts {
    Nothing,
    Fetched(Fetches),
    Answered(Answers),
}

/// What a job heard, in order: a get each of its fetches, an audit each of its asks, and any other job
/// nothing. The blocks lie in one vector, which was reserved when the job began.
#[derive(Drop)]
pub struct HeardList {
    pub(crate) parts: Parts,
}

impl Model for HeardList {
    ghost use Rattle.std.specs.Prelude.{List};
    ghost use Rattle.machine_defs.specs.Heard.{Entry};

    ghost Value = { List Entry };

    ghost use Rattle.vault.specs.Heard.{entries_in};

    ghost view = { λ list. entries_in list.parts };
}

impl HeardList {
    ghost use Rattle.std.specs.Prelude.{◌≡◌, []};

    /// Nothing heard. It takes no memory.
    pub fn new() -> HeardList
        ensures { result ≡ [] }
    {
        HeardList {
            parts: Parts::Nothing,
        }
    }
}
