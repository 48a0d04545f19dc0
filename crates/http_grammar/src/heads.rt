//! A response's head as the spans of its parts: a whole slice is a head of the grammar, or none.
ghost use Rattle.std.specs.Prelude.{length, IfSome};
ghost use Rattle.httparse.specs.Spans.{IsResponseWithin};
ghost use Rattle.http_grammar.specs.Heads.{ReadsResponseAlone};

use httparse::Status;
use httparse::spans::{HeaderSpan, ResponseSpans, parse_response};

/// The parts of a response's head that the bytes are; None where they are no head of the grammar
/// with so many fields as there are spans.
pub(crate) fn response_head(head: &[u8], spans: &mut [HeaderSpan]) -> Option<ResponseSpans>
    ensures reads { ReadsResponseAlone (length spans.old) head.now spans.new result }
    ensures within { IfSome result (IsResponseWithin head.now spans.new) }
{
    match parse_response(head, spans) {
        Ok(Status::Complete(read)) if read.len == head.len() => Some(read),
        _ => None,
    }
}
