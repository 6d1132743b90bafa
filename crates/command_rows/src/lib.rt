//! Worked rows of the commands over devices in memory.
#![tactic(auto)]

#[cfg(test)]
mod areas;
#[cfg(test)]
mod audits;
#[cfg(test)]
mod check;
#[cfg(test)]
mod cuts;
#[cfg(test)]
mod damage;
#[cfg(test)]
mod disk_faults;
#[cfg(test)]
mod files;
#[cfg(test)]
mod folders;
#[cfg(test)]
mod journals;
#[cfg(test)]
mod liars;
#[cfg(test)]
mod many;
#[cfg(test)]
mod memory;
#[cfg(test)]
mod packs;
#[cfg(test)]
mod provider_faults;
#[cfg(test)]
mod row;
#[cfg(test)]
mod schedules;
#[cfg(test)]
mod scrubs;
#[cfg(test)]
mod set_up;
#[cfg(test)]
mod setups;
#[cfg(test)]
mod stops;
#[cfg(test)]
mod stream_faults;
#[cfg(test)]
mod trials;
#[cfg(test)]
mod untold;
#[cfg(test)]
mod upkeep_faults;
#[cfg(test)]
mod versions;
