//! Messages that arrive at the bidder.
ghost use Rattle.std.specs.Prelude.{◌≡◌, [], IfOk};
ghost use Rattle.adx_io.specs.Fakes.{SinkState, SourceState};
ghost use Rattle.two_books.specs.Playing.{Brings, BringsLate, Delivers, completes};

use crate::late::Late;
use adx_io::{MemorySink, MemorySource};
use adx_units::{OutOfMemory, Sequence, Text};
use bidder_core::Bidder;
use bidder_http::serve_bidder;
use http_connection::ConnEnd;
use std::alloc::Global;

/// A copy of the bytes.
fn copy_of(alloc: Global, bytes: &[u8]) -> Result<Sequence<u8>, OutOfMemory>
    ensures { IfOk result (λ copy. copy ≡ bytes.now) }
{
    match Vec::from_slice(alloc, bytes) {
        Ok(copy) => Ok(Sequence::from(copy)),
        Err(_) => Err(OutOfMemory),
    }
}

/// Whether a connection ended by what it brought, and not by lack of memory.
fn is_whole(end: ConnEnd) -> bool
    ensures { result ≡ completes end }
{
    match end {
        ConnEnd::Closed | ConnEnd::Cut | ConnEnd::Refused { .. } | ConnEnd::Spent => true,
        ConnEnd::ReadFault | ConnEnd::WriteFault | ConnEnd::OutOfMemory => false,
    }
}

/// A source of a message.
fn source_of(alloc: Global, message: &[u8]) -> Result<MemorySource, OutOfMemory>
    ensures { IfOk result (λ (s : SourceState). s.tape ≡ record { taken = []; left = message.now }) }
{
    MemorySource::new(alloc, message, 0, &[])
}

/// A sink for the replies.
fn sink_of(alloc: Global) -> Result<MemorySink, OutOfMemory>
    ensures { IfOk result (λ (s : SinkState). s.bytes ≡ []) }
{
    MemorySink::new(alloc, 0, &[])
}

/// Serves a message over a connection; its reply.
fn serve(
    alloc: Global,
    bidder: &mut Bidder,
    source: &mut MemorySource,
    sink: &mut MemorySink,
) -> Result<Sequence<u8>, OutOfMemory>
    requires source { source.old.tape.taken ≡ [] }
    requires sink { sink.old.bytes ≡ [] }
    ensures { Delivers source.old.tape.left result bidder.old bidder.new }
{
    let end = serve_bidder(alloc, bidder, source, sink);
    if is_whole(end) {
        copy_of(alloc, sink.taken())
    } else {
        Err(OutOfMemory)
    }
}

/// Serves a message to the bidder over a connection of its own; its reply. Where memory is refused the bidder may have
/// heard some of the requests in it.
pub(crate) fn deliver(
    alloc: Global,
    bidder: &mut Bidder,
    message: &[u8],
) -> Result<Sequence<u8>, OutOfMemory>
    ensures { Delivers message.now result bidder.old bidder.new }
{
    let mut source = match source_of(alloc, message) {
        Ok(source) => source,
        Err(wanting) => return Err(wanting),
    };
    let mut sink = match sink_of(alloc) {
        Ok(sink) => sink,
        Err(wanting) => return Err(wanting),
    };
    serve(alloc, bidder, &mut source, &mut sink)
}

/// A reply is lost on its way.
fn lose(_reply: Sequence<u8>) {}

/// Serves a message to the bidder, whose reply is lost.
pub(crate) fn deliver_mute(
    alloc: Global,
    bidder: &mut Bidder,
    message: &[u8],
) -> Result<(), OutOfMemory>
    ensures { Brings message.now result bidder.old bidder.new }
{
    match deliver(alloc, bidder, message) {
        Ok(reply) => {
            lose(reply);
            Ok(())
        }
        Err(wanting) => Err(wanting),
    }
}

/// Serves a message to the bidder, whose reply is on its way then. If memory is refused the bidder may have heard some of the
/// requests in it, and no reply is on its way.
pub(crate) fn bring(
    alloc: Global,
    bidder: &mut Bidder,
    replies: &mut Vec<Late>,
    message: &Text,
) -> Result<(), OutOfMemory>
    ensures { BringsLate message.now result bidder.old bidder.new replies.old.items replies.new.items }
{
    let request = match message.copy(alloc) {
        Ok(request) => request,
        Err(wanting) => return Err(wanting),
    };
    match replies.reserve(1) {
        Ok(()) => {}
        Err(_) => return Err(OutOfMemory),
    }
    match deliver(alloc, bidder, message.as_bytes()) {
        Ok(bytes) => {
            replies.push_reserved(Late { request, bytes });
            Ok(())
        }
        Err(wanting) => Err(wanting),
    }
}
