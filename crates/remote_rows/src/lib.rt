//! Worked rows of remote providers and of a home's devices, over pipes and over a far end in memory.
#![tactic(auto)]

#[cfg(test)]
mod ahead;
#[cfg(test)]
mod barriers;
#[cfg(test)]
mod far_end;
#[cfg(test)]
mod frames;
#[cfg(test)]
mod homes;
#[cfg(test)]
mod pipes;
#[cfg(test)]
mod places;
