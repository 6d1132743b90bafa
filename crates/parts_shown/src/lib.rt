//! How the parts of this client are used, as docs/parts.md shows it.
#![tactic(auto)]

#[cfg(test)]
mod blocks;
#[cfg(test)]
mod field;
#[cfg(test)]
mod journal;
#[cfg(test)]
mod machine;
#[cfg(test)]
mod polynomials;
