//! The reply to a message that was answered.
ghost use Rattle.std.specs.Prelude.{◌≡◌};
ghost use Rattle.adx_http.specs.Written.{Writes, WritesBy};
ghost use Rattle.http_service.specs.Replies.{answer_bytes, is_head};

use crate::answer::Answer;
use adx_http::{Reply, Verb, WriteFault, write_reply};
use adx_io::Sink;

/// Whether a message asks for no body: it is a HEAD (RFC 9110, section 9.3.2).
pub fn asks_no_body(verb: Verb) -> bool
    ensures { result ≡ is_head verb }
{
    match verb {
        Verb::Head => true,
        Verb::Get => false,
        Verb::Post => false,
        Verb::Other => false,
    }
}

/// Puts the reply with an answer and its body (RFC 9112, section 4) into the sink. The body is JSON or empty. `close`: it
/// says that the connection closes after it (RFC 9112, section 9.6). `head`: it answers a HEAD, and its body isn't put
/// (RFC 9110, section 9.3.2). An error says that the sink failed; some front of the reply was put then.
pub fn write_answer<K: Sink>(
    sink: &mut K,
    answer: Answer,
    body: &[u8],
    close: bool,
    head: bool,
) -> Result<(), WriteFault>
    ensures taken { Writes (K.held sink.old) (K.held sink.new) (answer_bytes close head answer body.now) result }
    ensures cause { WritesBy (K.faults sink.old) (K.faults sink.new) result }
    ensures same { K.place sink.new ≡ K.place sink.old }
{
    let reply = Reply {
        status: answer.status,
        json: true,
        openrtb: answer.openrtb,
        close,
        allow: answer.allow.text(),
        head,
        body,
    };
    write_reply(sink, &reply)
}
