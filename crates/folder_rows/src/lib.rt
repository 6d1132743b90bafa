//! Worked rows of devices over real files and folders.
#![tactic(auto)]

#[cfg(test)]
mod adapters;
#[cfg(test)]
mod folders;
#[cfg(test)]
mod given;
#[cfg(test)]
mod stack_homes;
#[cfg(test)]
mod stacks;
