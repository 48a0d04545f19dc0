//! The call that fetches a URL.
ghost use Rattle.std.specs.Prelude.{◌≡◌, ◌++◌, IfOk, IfSome, OnOk, codes, decimal, string_bytes};
ghost use Rattle.httparse.specs.Ascii.{crlf_bytes};
ghost use Rattle.outbox.specs.Calls.{call_at as call_at_host, call_in as call_in_parts, IsValidAs, call_of as call_of_text, request_for, target_of};
ghost use Rattle.url.specs.Parts.{IsValid};

use adx_units::{OutOfMemory, Text};
use itoa::Buffer;
use std::alloc::Global;
use url::{ParseError, Url};

/// The port of the scheme http (RFC 9110, section 4.2.1).
pub const HTTP_PORT: u16 = 80;

/// A call of a host: whom, and what is asked.
#[derive(Debug, Drop)]
pub struct Call {
    /// The host, as the URL Standard writes it.
    pub host: Text,
    /// Its port.
    pub port: u16,
    /// The request, whole.
    pub request: Text,
}

/// Puts what is asked for: the path, and the query behind its `?`.
fn push_target(out: &mut String, parts: &Url) -> Result<(), OutOfMemory>
    ensures { OnOk result (string_bytes out.new ≡ string_bytes out.old ++ target_of parts.now) }
{
    out.push_str(parts.path())?;
    match parts.query() {
        None => Ok(()),
        Some(query) => {
            out.push_str("?")?;
            out.push_str(query)?;
            Ok(())
        }
    }
}

/// Puts the field that names the host.
fn push_host(out: &mut String, host: &str, port: u16) -> Result<(), OutOfMemory>
    ensures { OnOk result (string_bytes out.new ≡ string_bytes out.old
        ++ (codes "Host: " ++ host.now ++ codes ":" ++ decimal port ++ crlf_bytes)) }
{
    let mut digits = Buffer::new();
    out.push_str("Host: ")?;
    out.push_str(host)?;
    out.push_str(":")?;
    out.push_str(digits.format(port))?;
    out.push_str("\r\n")?;
    Ok(())
}

/// The request of a URL.
fn request_of(alloc: Global, parts: &Url, host: &str, port: u16) -> Result<String, OutOfMemory>
    ensures { IfOk result (λ s. string_bytes s ≡ request_for host.now port (target_of parts.entry.now)) }
{
    let mut out = String::new(alloc);
    out.push_str("GET ")?;
    push_target(&mut out, parts)?;
    out.push_str(" HTTP/1.1\r\n")?;
    push_host(&mut out, host, port)?;
    out.push_str("Connection: close\r\n\r\n")?;
    Ok(out)
}

/// The call of a URL at its host.
fn call_at(alloc: Global, parts: &Url, host: &str) -> Result<Call, OutOfMemory>
    ensures { IfOk result (λ c. c ≡ call_at_host parts.entry.now host.now) }
{
    let port = parts.port().unwrap_or(HTTP_PORT);
    let request = request_of(alloc, parts, host, port)?;
    Ok(Call {
        host: Text::of(alloc, host)?,
        port,
        request: Text::from(request),
    })
}

/// The call of a URL; none where its scheme isn't http, or it has no host.
fn call_in(alloc: Global, parts: &Url) -> Result<Option<Call>, OutOfMemory>
    ensures call { IfOk result (λ c. c ≡ call_in_parts parts.entry.now) }
    ensures valid { IsValid parts.entry.now }
{
    if parts.scheme() != "http" {
        return Ok(None);
    }
    match parts.host_str() {
        None => Ok(None),
        Some(host) => {
            let call = call_at(alloc, parts, host)?;
            Ok(Some(call))
        }
    }
}

/// The call that fetches a URL (URL Standard; RFC 9112, section 3), which is what an outbox asks for a post with that URL.
/// None where the text isn't a URL, its scheme isn't http, or it has no host. A URL for which there is no room wants memory.
pub fn call_of(alloc: Global, url: &str) -> Result<Option<Call>, OutOfMemory>
    ensures call { IfOk result (λ c. c ≡ call_of_text url.now) }
    ensures valid { IfOk result (λ c. IfSome c (λ _. IsValidAs url.now)) }
{
    match Url::parse(alloc, url) {
        Ok(parts) => call_in(alloc, &parts),
        Err(ParseError::OutOfMemory | ParseError::Overflow) => Err(OutOfMemory),
        Err(_refused) => Ok(None),
    }
}
