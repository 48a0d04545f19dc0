//! What a lobby leaves.
use crate::intake::Intake;
use adx_units::Counted;
use turnstile::Pass;

/// What is left of a lobby whose pairs were all given back.
#[derive(Drop)]
pub struct Left<A, T: Counted> {
    /// The acceptor.
    pub acceptor: A,
    /// The first pass.
    pub pass: Pass<T>,
    /// What the acceptor said last of connections to come.
    pub intake: Intake,
    /// Memory was wanting for a pair.
    pub wanting: bool,
}
