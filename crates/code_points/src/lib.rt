//! The profiles of the server code, and the coefficients of its codewords.
#![tactic(auto)]

mod bytes;
mod generator;
mod named;
mod profile;
mod table;

pub use bytes::{byte_inverse, byte_product, byte_sum};
pub use generator::{generator_row, kept_multipliers, parity_row};
pub use named::{is_unknown, profile_at};
pub use profile::{Profile, find_profile};
pub use table::multiplier;
