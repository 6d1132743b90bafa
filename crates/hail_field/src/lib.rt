//! The nim field: the numbers below 2^128 under XOR and the product of J. H. Conway, On Numbers and Games,
//! chapter 6.
#![tactic(auto)]

mod lanes;
pub mod laws;
mod levels;
mod memory;
mod shape;
mod symbol;
pub mod tables;

pub use memory::Memory;
pub use shape::Shape;
pub use symbol::Symbol;
