//! Worked rows of words, lines, schedules, transcripts and trials.
#![tactic(auto)]

#[cfg(test)]
mod counts;
#[cfg(test)]
mod faults;
#[cfg(test)]
mod given;
#[cfg(test)]
mod lines;
#[cfg(test)]
mod packs;
#[cfg(test)]
mod schedules;
#[cfg(test)]
mod scrubs;
#[cfg(test)]
mod served;
#[cfg(test)]
mod transcripts;
#[cfg(test)]
mod trials;
#[cfg(test)]
mod words;
