//! A reply that comes to the exchange after later steps.
ghost use Rattle.std.specs.Prelude.{◌≡◌, ◌∷◌, [], IfOk};
ghost use Rattle.two_books.specs.FoundPosts.{FindsPost, KnowsPost};
ghost use Rattle.two_books.specs.LateReplies.{AcknowledgesTo};
ghost use Rattle.two_books.specs.declared.replay.Reply.TheVariants.{Came};

use crate::exchange::Exchange;
use crate::late::Late;
use crate::replay::{ReplayLink, Reply};
use adx_units::{OutOfMemory, Sequence};
use outbox::{Post, call_of};
use std::alloc::Global;

/// Whether the post is sent as a message with this request.
fn is_sent_as(alloc: Global, post: &Post, request: &str) -> Result<bool, OutOfMemory>
    ensures { IfOk result (KnowsPost request.now post.now) }
{
    match call_of(alloc, post.url.as_str()) {
        Ok(None) => Ok(false),
        Ok(Some(call)) => Ok(call.request.as_str() == request),
        Err(wanting) => Err(wanting),
    }
}

/// The place of the first post that is sent as a message with this request; behind the last where none is.
fn place_of(alloc: Global, posts: &[Post], request: &str) -> Result<usize, OutOfMemory>
    ensures { IfOk result (FindsPost request.now posts.now) }
{
    let mut place = 0;
    for post in posts {
        match is_sent_as(alloc, post, request) {
            Ok(true) => return Ok(place),
            Ok(false) => place += 1,
            Err(wanting) => return Err(wanting),
        }
    }
    Ok(place)
}

/// The replies of a link that answers these bytes to its first start.
fn one_reply(alloc: Global, bytes: &[u8]) -> Result<Vec<Reply>, OutOfMemory>
    ensures { IfOk result (λ replies. replies.items ≡ Came bytes.now ∷ []) }
{
    let bytes = Sequence::from(Vec::from_slice(alloc, bytes)?);
    let mut replies = Vec::with_capacity(alloc, 1)?;
    replies.push(Reply::Came { bytes })?;
    Ok(replies)
}

/// A late reply comes to the exchange.
pub(crate) fn acknowledge(
    alloc: Global,
    exchange: &mut Exchange,
    late: &Late,
) -> Result<(), OutOfMemory>
    ensures { AcknowledgesTo late.now result exchange.old exchange.new }
{
    let place = match place_of(alloc, exchange.pending(), late.request.as_str()) {
        Ok(place) => place,
        Err(wanting) => return Err(wanting),
    };
    if place >= exchange.pending().len() {
        return Ok(());
    }
    let replies = match one_reply(alloc, late.bytes.as_slice()) {
        Ok(replies) => replies,
        Err(wanting) => return Err(wanting),
    };
    let mut link = ReplayLink::new(alloc, replies);
    match exchange.pump_one(place, &mut link) {
        Ok(_report) => Ok(()),
        Err(wanting) => Err(wanting),
    }
}
