//! The server code: encoding a provider's block, and correcting it.
#![tactic(auto)]

mod any;
mod behind;
mod code;
mod correct;
pub mod laws;
mod locator;
mod make;
mod open;
mod products;
mod quarters;
mod rows;
mod tables;
mod transform;

pub use any::AnyCode;
pub use code::ServerCode;
pub use correct::count_differences;
