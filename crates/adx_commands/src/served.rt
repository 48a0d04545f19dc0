//! What a command gives back.
use crate::not_begun::NotBegun;

/// What a command that talks over the network gives back: the exit status, and the objects that it was given.
#[derive(Drop)]
pub struct Served<A, D, L> {
    /// The exit status.
    pub status: u8,
    /// The acceptor of connections.
    pub acceptor: Option<A>,
    /// The disk of the journal.
    pub disk: Option<D>,
    /// The link that notices are sent over.
    pub post: Option<L>,
    /// How many workers shared the connections; none of `post` and `bid`, which have no workers.
    pub workers: usize,
    /// Why it didn't begin, where the status alone doesn't say it.
    pub why: Option<NotBegun>,
}
