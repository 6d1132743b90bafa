//! Worked rows of devices in memory: streams, the disk, and providers, also behind a wire.
#![tactic(auto)]

#[cfg(test)]
mod disk;
#[cfg(test)]
mod given;
#[cfg(test)]
mod providers;
#[cfg(test)]
mod streams;
#[cfg(test)]
mod wire;
