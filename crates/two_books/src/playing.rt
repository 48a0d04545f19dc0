//! Messages that are sent, and what comes back of them.
ghost use Rattle.std.specs.Prelude.{◌≡◌, ◌<◌, [], IfOk, OnOk, get_or, length, vec_capacity, vec_len};
ghost use Rattle.outbox.specs.Calls.{call_of as call_in};
ghost use Rattle.two_books.specs.Playing.{Meets, PlaysAll, PlaysPost, SendsMessage};
ghost use Rattle.two_books.specs.declared.step.Fate.{Fate as FateValue};

use crate::delivery::{deliver, deliver_mute};
use crate::replay::Reply;
use crate::step::Fate;
use adx_units::OutOfMemory;
use bidder_core::Bidder;
use outbox::{Call, Post, call_of};
use std::alloc::Global;

/// The fate in that place, from 0; what comes after the last goes through.
fn fate_at(fates: &[Fate], place: usize) -> Fate
    ensures { result ≡ get_or fates.now place FateValue.Through }
{
    match fates.get(place) {
        Some(fate) => *fate,
        None => Fate::Through,
    }
}

/// A message meets its fate; what comes back of it. One that is held wants no memory.
fn befall(
    alloc: Global,
    bidder: &mut Bidder,
    message: &[u8],
    fate: Fate,
) -> Result<Reply, OutOfMemory>
    ensures { Meets fate message.now result bidder.old bidder.new }
{
    match fate {
        Fate::Held => Ok(Reply::Lost),
        Fate::Mute => match deliver_mute(alloc, bidder, message) {
            Ok(()) => Ok(Reply::Lost),
            Err(wanting) => Err(wanting),
        },
        Fate::Through => match deliver(alloc, bidder, message) {
            Ok(bytes) => Ok(Reply::Came { bytes }),
            Err(wanting) => Err(wanting),
        },
    }
}

/// Makes room for one more message, and for one more reply.
fn make_room(messages: &mut Vec<Call>, replies: &mut Vec<Reply>) -> Result<(), OutOfMemory>
    ensures messages { messages.new.items ≡ messages.old.items }
    ensures replies { replies.new.items ≡ replies.old.items }
    ensures message { OnOk result (vec_len messages.new < vec_capacity messages.new) }
    ensures reply { OnOk result (vec_len replies.new < vec_capacity replies.new) }
{
    messages.reserve(1)?;
    replies.reserve(1)?;
    Ok(())
}

/// Sends a message, and keeps what comes back of it. Where memory is refused it may have been sent, and nothing kept.
fn send(
    alloc: Global,
    bidder: &mut Bidder,
    messages: &mut Vec<Call>,
    replies: &mut Vec<Reply>,
    message: Call,
    fate: Fate,
) -> Result<(), OutOfMemory>
    ensures { SendsMessage message fate result messages.old.items messages.new.items replies.old.items replies.new.items
        bidder.old bidder.new }
{
    match make_room(messages, replies) {
        Ok(()) => {}
        Err(wanting) => return Err(wanting),
    }
    let befell = befall(alloc, bidder, message.request.as_bytes(), fate);
    messages.push_reserved(message);
    match befell {
        Ok(reply) => {
            replies.push_reserved(reply);
            Ok(())
        }
        Err(wanting) => Err(wanting),
    }
}

/// Sends the message of a post, if it has one.
fn play(
    alloc: Global,
    bidder: &mut Bidder,
    messages: &mut Vec<Call>,
    replies: &mut Vec<Reply>,
    post: &Post,
    fates: &[Fate],
) -> Result<(), OutOfMemory>
    ensures { PlaysPost post.now.url (call_in post.now.url) (get_or fates.now (length replies.old.items) FateValue.Through) result
        messages.old.items messages.new.items replies.old.items replies.new.items bidder.old bidder.new }
{
    let fate = fate_at(fates, replies.as_slice().len());
    match call_of(alloc, post.url.as_str()) {
        Ok(None) => Ok(()),
        Ok(Some(message)) => send(alloc, bidder, messages, replies, message, fate),
        Err(wanting) => Err(wanting),
    }
}

/// Sends the messages of posts, one after the other, each with the next fate. Where memory is refused some first of them
/// were sent.
pub(crate) fn play_all(
    alloc: Global,
    bidder: &mut Bidder,
    messages: &mut Vec<Call>,
    replies: &mut Vec<Reply>,
    posts: &[Post],
    fates: &[Fate],
) -> Result<(), OutOfMemory>
    requires { replies.old.items ≡ [] }
    ensures { PlaysAll posts.now fates.now result messages.old.items messages.new.items replies.new.items
        bidder.old bidder.new }
{
    for post in posts {
        match play(alloc, bidder, messages, replies, post, fates) {
            Ok(()) => {}
            Err(wanting) => return Err(wanting),
        }
    }
    Ok(())
}
