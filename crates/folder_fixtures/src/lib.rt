//! A stand-in for the operating system's files, whose power is cut, and commands over real devices on it.
#![tactic(auto)]

mod case;
mod command;
mod home;
mod medium;
mod stand_in;
mod stores;

pub use case::{Case, Cut, Form, Shown, first_wrong_cut};
pub use command::{Row, goes_over_forgetful_files};
pub use stores::{Deed, Done, done_about_a_failed_sync, first_wrong_deed};
