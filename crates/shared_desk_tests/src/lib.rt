//! Desks that threads share, and the boards of their meters, over a disk in memory: two threads at one award, each call,
//! and what readers are shown.
//!
//! It is tests alone, over the public calls of `shared_desk` and `desk_board`.
#![tactic(auto)]

#[cfg(test)]
mod bills;
#[cfg(test)]
mod boards;
#[cfg(test)]
mod calls;
#[cfg(test)]
mod days;
#[cfg(test)]
mod lines;
