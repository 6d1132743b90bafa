//! Worked rows of the vault, step by step, over devices in memory.
#![tactic(auto)]

#[cfg(test)]
mod asking;
#[cfg(test)]
mod cores;
#[cfg(test)]
mod counted;
#[cfg(test)]
mod deeds;
#[cfg(test)]
mod holding;
#[cfg(test)]
mod job;
#[cfg(test)]
mod packing;
#[cfg(test)]
mod rebuilding;
#[cfg(test)]
mod sharing;
#[cfg(test)]
mod stopping;
#[cfg(test)]
mod store;
#[cfg(test)]
mod streaming;
#[cfg(test)]
mod versions;
