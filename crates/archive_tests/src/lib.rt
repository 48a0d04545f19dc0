//! Tests of keepers of closed days: one in memory, and one over SQLite in memory and on a file, by the same calls; and days of
//! several campaigns over SQLite.
//!
//! It is tests alone, over the public calls of the crates below.
#![tactic(auto)]

#[cfg(test)]
mod calls;
#[cfg(test)]
mod campaigns;
#[cfg(test)]
mod keepers;
#[cfg(test)]
mod sql;
