//! Products, squares and inverses of symbols.

use crate::failure::Failure;
use crate::numbers::{after, number_named};
use crate::outcome::{NOTHING, Outcome};
use hail_field::Symbol;

/// What is done with each symbol.
#[derive(Clone, Copy)]
pub enum Operation {
    /// Its product with the next one.
    Product,
    /// Its product with itself.
    Square,
    /// Its inverse.
    Inverse,
}

impl Operation {
    /// The operation of this name.
    fn named(word: &str) -> Result<Operation, Failure> {
        match word {
            "product" => Ok(Operation::Product),
            "square" => Ok(Operation::Square),
            "inverse" => Ok(Operation::Inverse),
            _ => Err(Failure::Usage),
        }
    }

    /// What the operation gives at a symbol, before the next one.
    fn answer(self, a: Symbol, next: Symbol) -> Symbol {
        match self {
            Operation::Product => a.mul(next),
            Operation::Square => a.square(),
            Operation::Inverse => match a.inv() {
                Some(inverse) => inverse,
                None => Symbol::ZERO,
            },
        }
    }
}

/// An operation on the first numbers of the row, this many of them.
#[derive(Clone, Copy)]
pub struct FieldWork {
    operation: Operation,
    count: u32,
}

impl FieldWork {
    /// The work of this operation, with a count as the one word behind its name.
    pub(crate) fn from_words(operation: &str, words: &[String]) -> Result<FieldWork, Failure> {
        let [count] = words else {
            return Err(Failure::Usage);
        };
        Ok(FieldWork {
            operation: Operation::named(operation)?,
            count: number_named(count)?,
        })
    }

    /// Does the work. The checksum is the sum of the answers.
    pub(crate) fn run(&self) -> Outcome {
        let mut number = 1;
        let mut sum = Symbol::ZERO;
        for _ in 0..self.count {
            let next = after(number);
            sum = sum.add(self.operation.answer(Symbol(number), Symbol(next)));
            number = next;
        }
        Outcome {
            count: self.count,
            checksum: sum.0,
            decoded: NOTHING,
        }
    }
}
