//! The records of the journal, and their bytes.
#![tactic(auto)]

mod counts;
pub mod laws;
mod name;
mod reading;
mod records;
mod setup;
mod writing;

pub use counts::Counts;
pub use name::Name;
pub use records::Record;
pub use setup::Setup;
