//! Tests of connections on a desk that threads share: what each is replied is what the same messages are replied on a desk
//! of their own, in the order in which they came; and bidders are asked at the same time.
#![tactic(auto)]

#[cfg(test)]
mod alike;
#[cfg(test)]
mod days;
#[cfg(test)]
mod failing;
#[cfg(test)]
mod lanes;
#[cfg(test)]
mod links;
#[cfg(test)]
mod serving;
#[cfg(test)]
mod turns;
