//! Tests with threads: boards of meters, turnstiles and lobbies, each by two and more threads at once.
//!
//! It is tests alone, over the public calls of the crates below.
#![tactic(auto)]

#[cfg(test)]
mod boards;
#[cfg(test)]
mod lobbies;
#[cfg(test)]
mod tally;
#[cfg(test)]
mod turnstiles;
