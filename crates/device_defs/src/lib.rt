//! What devices may do, as definitions: counts of faults and their causes, content that a device tells or
//! does not, the cells and images of a disk, and the blocks of a provider.
#![tactic(auto)]

pub mod laws;
