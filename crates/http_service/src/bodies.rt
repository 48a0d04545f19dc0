//! What is answered where nothing is offered, and why a message is refused that is whole.
ghost use Rattle.std.specs.Prelude.{◌≡◌, ◌++◌, OnOk, string_bytes};
ghost use Rattle.http_service.specs.Bodies.{disallowed as disallowed_of, plain as plain_of, refused_body};

use crate::answer::{Answer, Methods};
use adx_units::{OutOfMemory, push_text};

/// Writes a text into a body, after what it holds, as it is. An error says that memory was refused; the body may
/// then end in a part of the text.
pub fn push_body(body: &mut String, text: &str) -> Result<(), OutOfMemory>
    ensures { OnOk result (string_bytes body.new ≡ string_bytes body.old ++ text.now) }
{
    body.push_str(text)?;
    Ok(())
}

/// The answer with that status (RFC 9110, section 15), which says no version of OpenRTB and no methods.
pub fn plain(status: u16) -> Answer
    ensures { result ≡ plain_of status }
{
    Answer {
        status,
        openrtb: false,
        allow: Methods::Unsaid,
    }
}

/// The answer to a method that isn't one of these: 405, with the header Allow (RFC 9110, section 15.5.6).
pub fn disallowed(methods: Methods) -> Answer
    ensures { result ≡ disallowed_of methods }
{
    Answer {
        status: 405,
        openrtb: false,
        allow: methods,
    }
}

/// Writes a JSON object (RFC 8259) that says why a message is refused into a body, after what it holds. An error says
/// that memory was refused; the body may then end in a part of the object.
pub fn push_refused(body: &mut String, why: &str) -> Result<(), OutOfMemory>
    ensures { OnOk result (string_bytes body.new ≡ string_bytes body.old ++ refused_body why.now) }
{
    push_body(body, "{\"answer\":\"refused\",\"why\":")?;
    push_text(body, why)?;
    push_body(body, "}")
}
