//! Why no message was read.
use std::fmt;

/// Why no message was read.
#[derive(Clone, Copy, Debug, PartialEq, Eq)]
pub enum HttpFault {
    /// The bytes up to the empty line aren't a head of the grammar, or its fields don't agree.
    BadHead,
    /// So many bytes hold no whole head, or more than 64 lines come after its first.
    HeadTooLong,
    /// A POST says no length.
    LengthRequired,
    /// The body passes the limit.
    BodyTooLong,
    /// A chunk line, the end of a chunk or a trailer isn't of its form.
    BadChunk,
    /// The source ended within a message, or an earlier fault wasn't cleared.
    Cut,
    /// The source failed.
    ReadFault,
    /// The body is coded otherwise than by `identity`.
    Coding,
}

impl fmt::Display for HttpFault {
    fn fmt<W: fmt::Write>(&self, f: &mut fmt::Formatter<W>) -> fmt::Result {
        f.write_str(match self {
            HttpFault::BadHead => "the head isn't one of HTTP/1.1",
            HttpFault::HeadTooLong => "the head is too long",
            HttpFault::LengthRequired => "a POST says no length",
            HttpFault::BodyTooLong => "the body is too long",
            HttpFault::BadChunk => "a chunk isn't of its form",
            HttpFault::Cut => "the bytes end within a message",
            HttpFault::ReadFault => "the source failed",
            HttpFault::Coding => "the body is coded",
        })
    }
}

impl std::error::Error for HttpFault {}
