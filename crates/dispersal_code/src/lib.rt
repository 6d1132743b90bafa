//! The dispersal code across providers: the symbols of a row, and the row that enough of them agree on.
#![tactic(auto)]

mod encode;
pub mod laws;
mod open;
mod present;

pub use encode::encode_row;
pub use open::open_row;
