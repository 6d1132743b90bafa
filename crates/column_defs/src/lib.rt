//! What providers are to hold, what seen blocks open to, forgeries, answers and verdicts, as definitions.
#![tactic(auto)]

pub mod laws;
