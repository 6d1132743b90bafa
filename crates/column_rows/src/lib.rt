//! Worked rows of keys, masks, layout and columns, of challenges, answers and verdicts, and of the works that
//! are measured.
#![tactic(auto)]

#[cfg(test)]
mod answers;
#[cfg(test)]
mod challenges;
#[cfg(test)]
mod columns;
#[cfg(test)]
mod given;
#[cfg(test)]
mod keys;
#[cfg(test)]
mod layout;
#[cfg(test)]
mod masks;
#[cfg(test)]
mod verdicts;
#[cfg(test)]
mod works;
