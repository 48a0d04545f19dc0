//! The replies to messages that are refused.
ghost use Rattle.std.specs.Prelude.{◌≡◌};
ghost use Rattle.adx_http.specs.Written.{Writes, WritesBy};
ghost use Rattle.http_service.specs.Replies.{refusal_bytes};

use adx_http::{Reply, WriteFault, write_reply};
use adx_io::Sink;

/// Puts the reply to a message that is refused, with that status (RFC 9110, section 15) and no body, into the sink. It says
/// that the connection closes after it (RFC 9112, section 9.6). An error says that the sink failed; some front of the reply
/// was put then.
pub fn write_refusal<K: Sink>(sink: &mut K, status: u16) -> Result<(), WriteFault>
    ensures taken { Writes (K.held sink.old) (K.held sink.new) (refusal_bytes status) result }
    ensures cause { WritesBy (K.faults sink.old) (K.faults sink.new) result }
    ensures same { K.place sink.new ≡ K.place sink.old }
{
    let reply = Reply {
        status,
        json: true,
        openrtb: false,
        close: true,
        allow: b"",
        head: false,
        body: b"",
    };
    write_reply(sink, &reply)
}
