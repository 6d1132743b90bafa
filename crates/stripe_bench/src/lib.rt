//! What the stripes of objects are fetched into, opened from and stored with, by jobs and by a scrub.
#![tactic(auto)]

mod benches;
mod blocks;
mod opened;
mod room;
mod seen;
mod storing;

pub use benches::bench_place;
pub use blocks::Blocks;
pub use storing::store_stripe;
