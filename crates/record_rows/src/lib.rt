//! Worked rows of records, the journal, the table and the packed journal.
#![tactic(auto)]

#[cfg(test)]
mod given;
#[cfg(test)]
mod journal;
#[cfg(test)]
mod packing;
#[cfg(test)]
mod records;
#[cfg(test)]
mod table;
#[cfg(test)]
mod whole;
