//! Requests for bids that are refused though they are whole.
ghost use Rattle.std.specs.Prelude.{◌≡◌, ◌++◌, OnOk, string_bytes};
ghost use Rattle.http_service.specs.Bodies.{refused_body};
ghost use Rattle.script_lines.specs.Whys.{why_of};

use adx_units::OutOfMemory;
use http_service::push_refused;
use script_lines::{Refusal, push_why};
use std::alloc::Global;

/// Writes why a request for bids is refused, as a script's line words it.
pub(crate) fn push_refusal(
    alloc: Global,
    body: &mut String,
    why: &Refusal,
) -> Result<(), OutOfMemory>
    ensures { OnOk result (string_bytes body.new ≡ string_bytes body.old ++ refused_body (why_of why.now)) }
{
    let mut text = String::new(alloc);
    push_why(&mut text, why)?;
    push_refused(body, text.as_str())
}
