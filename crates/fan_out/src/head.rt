//! A request to a bidder.
ghost use Rattle.std.specs.Prelude.{◌≡◌, ◌++◌, IfOk, OnOk, string_bytes, decimal, codes};
ghost use Rattle.adx_http.specs.Replies.{field_line};
ghost use Rattle.fan_out.specs.Requests.{host_and_port, request_bytes, request_head, request_line};

use adx_units::OutOfMemory;
use deal_floor::Place;
use formats::push_number;
use std::alloc::Global;

/// Puts the request line.
fn push_request_line(out: &mut String, path: &str) -> Result<(), OutOfMemory>
    ensures { OnOk result (string_bytes out.new ≡ string_bytes out.old ++ request_line path.now) }
{
    out.push_str("POST ")?;
    out.push_str(path)?;
    out.push_str(" HTTP/1.1\r\n")?;
    Ok(())
}

/// Puts the field that names the host.
fn push_host(out: &mut String, place: &Place) -> Result<(), OutOfMemory>
    ensures { OnOk result (string_bytes out.new ≡ string_bytes out.old ++ field_line (codes "Host") (host_and_port place.now)) }
{
    out.push_str("Host: ")?;
    out.push_str(place.host.as_str())?;
    out.push_str(":")?;
    push_number(out, u64::from(place.port))?;
    out.push_str("\r\n")?;
    Ok(())
}

/// Puts the field that says the body's length.
fn push_length(out: &mut String, length: usize) -> Result<(), OutOfMemory>
    ensures { OnOk result (string_bytes out.new ≡ string_bytes out.old ++ field_line (codes "Content-Length") (decimal length)) }
{
    out.push_str("Content-Length: ")?;
    push_number(out, length as u64)?;
    out.push_str("\r\n")?;
    Ok(())
}

/// The head of a request to a bidder whose body has that many bytes.
fn head_of(alloc: Global, place: &Place, length: usize) -> Result<String, OutOfMemory>
    ensures { IfOk result (λ h. string_bytes h ≡ request_head place.now length) }
{
    let mut head = String::new(alloc);
    push_request_line(&mut head, place.path.as_str())?;
    push_host(&mut head, place)?;
    head.push_str("Content-Type: application/json\r\nx-openrtb-version: 2.6\r\n")?;
    push_length(&mut head, length)?;
    head.push_str("Connection: close\r\n\r\n")?;
    Ok(head)
}

/// A request to a bidder in one piece, so that one write sends it.
pub(crate) fn request_of(alloc: Global, place: &Place, body: &[u8]) -> Result<Vec<u8>, OutOfMemory>
    ensures { IfOk result (λ r. r.items ≡ request_bytes place.now body.now) }
{
    let head = head_of(alloc, place, body.len())?;
    let mut request = Vec::with_capacity(alloc, head.len() + body.len())?;
    request.extend_from_slice(head.as_bytes())?;
    request.extend_from_slice(body)?;
    Ok(request)
}
