//! Tests of input that isn't of its form, by the calls that read it, and of a connection of a million messages.
//!
//! It is tests alone, over the public calls of the crates below.
#![tactic(auto)]

#[cfg(test)]
mod broken_input;
#[cfg(test)]
mod repeating;
