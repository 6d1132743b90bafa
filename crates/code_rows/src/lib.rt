//! Worked rows of the field, of polynomials and of the codes.
#![tactic(auto)]

#[cfg(test)]
mod decoders;
#[cfg(test)]
mod dispersal;
#[cfg(test)]
mod encoded;
#[cfg(test)]
mod field;
#[cfg(test)]
mod given;
#[cfg(test)]
mod points;
#[cfg(test)]
mod poly;
#[cfg(test)]
mod server;
#[cfg(test)]
mod syndrome;
