//! An outbox and the link that its posts are tried over.
use outbox::Outbox;

/// An outbox, and the link that its posts are tried over, on which nothing else is asked.
#[derive(Drop)]
pub struct Mail<L> {
    /// The posts that are pending, and what posts to come need.
    pub outbox: Outbox,
    /// The link.
    pub link: L,
}
