//! What holds of every disk that tells its cells.

pub use device_defs::laws::{images, offsets, picks, what_is_read};
