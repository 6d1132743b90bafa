//! What a disk reads when a store is set up or opened, and the states whose vault was just opened, as
//! definitions.
#![tactic(auto)]
