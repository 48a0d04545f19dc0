//! The commands, each over the objects that it is given.
ghost use Rattle.adx_links.specs.Told.{told_by};
ghost use Rattle.command_bidder.specs.Bidding.{IsUnused};
ghost use Rattle.adx_commands.specs.Causes.{HasCauses};
ghost use Rattle.adx_commands.specs.NetworkCommands.{RunsBid, RunsPost};
ghost use Rattle.adx_commands.specs.Served.{KeepsObjects};

use crate::not_begun::{bid_not_begun, post_not_begun};
use crate::objects::{Objects, give_back};
use crate::served::Served;
use adx_links::{Acceptor, Link};
use command_bidder::bid;
use command_notices::post_notices;
use day_journal::Disk;
use std::alloc::Global;
use std::sync::Wait;

/// The status where links are given to a command that has no use for any.
const REFUSED: u8 = 3;

/// Tries each notice that the day of a document's roster owes its bidders once.
pub(crate) fn run_post<A: Acceptor + Drop, D: Disk + Drop, L: Link + Drop>(
    alloc: Global,
    document: &[u8],
    objects: Objects<A, D, L>,
) -> Served<A, D, L>
    ensures runs { RunsPost L.Link D.Disk document.now objects result }
    ensures causes { HasCauses A.Acceptor D.Disk objects result × KeepsObjects D.Disk objects result }
{
    if !objects.links.is_empty() {
        return give_back(objects, REFUSED, None);
    }
    let mut post = objects.post;
    let (end, disk) = post_notices(alloc, document, objects.disk, &mut post);
    Served {
        status: command_notices::status_of(end),
        acceptor: Some(objects.acceptor),
        disk: Some(disk),
        post: Some(post),
        workers: 0,
        why: post_not_begun(end),
    }
}

/// Serves the bidder of a document's price line over the acceptor.
pub(crate) fn run_bid<R: Wait, A: Acceptor + Drop, D: Disk + Drop, L: Drop>(
    rt: &R,
    alloc: Global,
    document: &[u8],
    objects: Objects<A, D, L>,
) -> Served<A, D, L>
    requires unused { IsUnused (told_by A.Acceptor A.In.Source A.Out.Sink objects.acceptor) }
    ensures runs { RunsBid A.Acceptor A.In.Source A.Out.Sink document.now objects result }
    ensures causes { HasCauses A.Acceptor D.Disk objects result × KeepsObjects D.Disk objects result }
{
    if !objects.links.is_empty() {
        return give_back(objects, REFUSED, None);
    }
    let mut acceptor = objects.acceptor;
    let end = bid(rt, alloc, document, &mut acceptor);
    Served {
        status: command_bidder::status_of(end),
        acceptor: Some(acceptor),
        disk: Some(objects.disk),
        post: Some(objects.post),
        workers: 0,
        why: bid_not_begun(end),
    }
}
