//! Tests of bidders that are asked: links in memory and over sockets, what each kind of answer comes to, links that fail, and
//! lanes that are worked at the same time.
//!
//! It is tests alone, over the public calls of the crates below.
#![tactic(auto)]

#[cfg(test)]
mod answers;
#[cfg(test)]
mod lanes;
#[cfg(test)]
mod links;
