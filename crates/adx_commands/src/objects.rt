//! What a command is given.
ghost use Rattle.std.specs.Prelude.{◌≡◌};
ghost use Rattle.adx_commands.specs.Served.{IsUntouched};

use crate::not_begun::NotBegun;
use crate::served::Served;

/// The objects that a command is given.
#[derive(Drop)]
pub(crate) struct Objects<A, D, L> {
    /// The acceptor of connections.
    pub(crate) acceptor: A,
    /// The disk of the journal.
    pub(crate) disk: D,
    /// Lists of links to the bidders, one for each worker.
    pub(crate) links: Vec<Vec<L>>,
    /// The link that notices are sent over.
    pub(crate) post: L,
}

/// Gives the objects back as they are, with this status, and why nothing was done.
pub(crate) fn give_back<A: Drop, D: Drop, L: Drop>(
    objects: Objects<A, D, L>,
    status: u8,
    why: Option<NotBegun>,
) -> Served<A, D, L>
    ensures untouched { IsUntouched objects result }
    ensures status { result.status ≡ status }
    ensures why { result.why ≡ why }
{
    Served {
        status,
        acceptor: Some(objects.acceptor),
        disk: Some(objects.disk),
        post: Some(objects.post),
        workers: 0,
        why,
    }
}
