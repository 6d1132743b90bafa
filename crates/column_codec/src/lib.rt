//! What providers hold of a stripe, made from a file's bytes and opened from what was seen.
#![tactic(auto)]

mod agreement;
mod at_hand;
mod bench;
mod block;
mod clean;
mod codec;
mod coder;
mod column;
mod encode;
mod gather;
mod guess;
mod keys;
mod made;
mod masks;
mod open_block;
mod opened;
mod opening;
mod present;
mod row_values;
mod seen;
mod table;
mod tables;
mod trust;
mod weights;

pub use at_hand::AtHand;
pub use bench::Bench;
pub use block::Block;
pub use codec::Codec;
pub use keys::ObjectKeys;
pub use masks::MasksAtHand;
pub use opening::RowLost;
pub use table::ConstantTable;
pub use trust::{Decoded, Trust};
