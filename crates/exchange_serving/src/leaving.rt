//! What serving leaves, and what is given back where it didn't begin.
use crate::ending::Ending;
use adx_desk::Desk;
use day_journal::Disk;
use fan_out::Lane;

/// What is given back once all connections were served, and how that ended.
#[derive(Drop)]
pub struct Served<A, D, L> {
    /// How it ended.
    pub ending: Ending,
    /// How many workers shared the lobby: one for each list of lanes, or none where memory was refused for them.
    pub workers: usize,
    /// The acceptor, which has every pair back that it gave out.
    pub acceptor: A,
    /// The desk's disk.
    pub disk: D,
    /// The link that posts go over.
    pub post: L,
}

/// What is given back where no desk is left, for lack of memory.
#[derive(Drop)]
pub enum Unserved<A, D: Disk, L> {
    /// Memory was refused before the desk was shared: all is given back as it came.
    Unbegun {
        /// The desk.
        desk: Desk<D>,
        /// The acceptor.
        acceptor: A,
        /// The lanes of the workers.
        lanes: Vec<Vec<Lane<L>>>,
        /// The link that posts go over.
        post: L,
    },
    /// Memory was refused for sharing the desk, which is lost with its disk: all else is given back as it came.
    Unshared {
        /// The acceptor.
        acceptor: A,
        /// The lanes of the workers.
        lanes: Vec<Vec<Lane<L>>>,
        /// The link that posts go over.
        post: L,
    },
    /// Memory was refused for the workers' threads, or a worker had a pair while none was out, which no run reaches: the
    /// link that posts go over is all that is left.
    Lost {
        /// The link that posts go over.
        post: L,
    },
}
