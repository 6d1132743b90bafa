//! One stripe made or opened by itself, for users of the parts.
#![tactic(auto)]

mod fault;
mod laying;
mod making;
mod opening;

pub use fault::OpenFault;
pub use making::{column_block, encode_stripe};
pub use opening::open_stripe;
