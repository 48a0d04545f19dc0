//! How serving ended.

/// How serving connections ended.
#[derive(Clone, Copy, Debug, PartialEq, Eq)]
pub enum Ending {
    /// No more connections come, and no post is pending.
    Done,
    /// The acceptor failed, and its count of faults rose.
    AcceptorFault,
    /// The disk failed in a call of a connection, and its count of faults rose.
    DiskFault,
    /// No more connections come, and some posts are pending: the last try of each met a fault of the link, or an answer
    /// outside 200 to 299.
    Pending,
    /// Memory was refused.
    OutOfMemory,
}
