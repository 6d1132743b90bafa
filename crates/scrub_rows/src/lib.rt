//! Worked rows of scrubs, over providers in memory.
#![tactic(auto)]

#[cfg(test)]
mod files;
#[cfg(test)]
mod rows;
#[cfg(test)]
mod stores;
