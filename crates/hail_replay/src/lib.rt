//! Carries out schedules and trials: each event is performed by a client over its devices, and what came of
//! it is written or counted.
#![tactic(auto)]

mod begun;
mod came;
mod counted;
mod ended;
mod event;
mod forms;
mod heard;
pub mod laws;
mod lines;
mod listed;
mod opened;
mod refused;
mod replaced;
mod schedule;
mod seen;
mod stepped;
mod tally;
mod text;

pub use begun::begin_line;
pub use came::{Came, came_lines};
pub use counted::trial;
pub use ended::{answer_line, pack_answer_line, scrub_answer_line};
pub use event::perform;
pub use forms::{Form, read_form};
pub use heard::HeardLists;
pub use listed::names_lines;
pub use opened::{init_line, reopen_line};
pub use replaced::{replace_line, stop_line};
pub use schedule::{Replayed, replay};
pub use seen::{Seen, seen_end};
pub use stepped::step_line;
pub use tally::Tally;
