//! A provider behind a wire, as definitions: requests and their bytes, what a provider answers them, and how
//! a server of the requests in a source ends.
#![tactic(auto)]
