//! The values of a Host field.
ghost use Rattle.std.specs.Prelude.{◌≡◌, slice_index, ◌⊎◌, ◌↔◌, ◌<◌, ◌+◌, ℕ, List, [], ◌∷◌, ◌++◌, ◌≤◌, ◌≢◌, All, length, take, drop, IsTrue, MatchBool};
ghost use Rattle.std.specs.Char.{is_ascii_digit};
ghost use Rattle.httparse.specs.Ascii.{colon};
ghost use Rattle.httparse.specs.Grammar.{AllPass};
ghost use Rattle.http_grammar.specs.Fields.{is_mark, IsHostByte, IsHostName, IsAddress, IsHost, IsHostValue, IsPort, left_bracket, right_bracket};

use crate::lengths::are_digits;
use memchr::memchr;

/// Which bytes are letters, digits or marks.
#[rattlefmt::skip]
static MARKS: [bool; 256] = [
    false, false, false, false, false, false, false, false,
    false, false, false, false, false, false, false, false,
    false, false, false, false, false, false, false, false,
    false, false, false, false, false, false, false, false,
    false, true, false, false, true, false, true, true,
    true, true, true, true, true, true, true, false,
    true, true, true, true, true, true, true, true,
    true, true, false, true, false, true, false, false,
    false, true, true, true, true, true, true, true,
    true, true, true, true, true, true, true, true,
    true, true, true, true, true, true, true, true,
    true, true, true, false, false, false, false, true,
    false, true, true, true, true, true, true, true,
    true, true, true, true, true, true, true, true,
    true, true, true, true, true, true, true, true,
    true, true, true, false, false, false, true, false,
    false, false, false, false, false, false, false, false,
    false, false, false, false, false, false, false, false,
    false, false, false, false, false, false, false, false,
    false, false, false, false, false, false, false, false,
    false, false, false, false, false, false, false, false,
    false, false, false, false, false, false, false, false,
    false, false, false, false, false, false, false, false,
    false, false, false, false, false, false, false, false,
    false, false, false, false, false, false, false, false,
    false, false, false, false, false, false, false, false,
    false, false, false, false, false, false, false, false,
    false, false, false, false, false, false, false, false,
    false, false, false, false, false, false, false, false,
    false, false, false, false, false, false, false, false,
    false, false, false, false, false, false, false, false,
    false, false, false, false, false, false, false, false,
];

/// Whether the byte is a letter, a digit or a mark.
fn is_name_byte(b: u8) -> bool
    ensures { result ≡ is_mark b }
{
    MARKS[b as usize]
}

/// How many letters, digits and marks come first.
fn marks_in(value: &[u8]) -> usize
    ensures within { result ≤ length value.now }
    ensures marks { (k : ℕ) → k < result → IsTrue (is_mark (slice_index value.now k)) }
{
    let mut end = 0;
    while end < value.len() && is_name_byte(value[end]) {
        end += 1;
    }
    end
}

/// Whether a character of a host's name is at this place.
fn is_host_byte(host: &[u8], k: usize) -> bool
    requires { k < length host.now }
    ensures { IsTrue result ↔ IsHostByte host.now k }
{
    if is_name_byte(host[k]) {
        return true;
    }
    host[k] == b'%'
        && host.len() - k > 2
        && host[k + 1].is_ascii_hexdigit()
        && host[k + 2].is_ascii_hexdigit()
}

/// Whether characters of a host's name are at each place.
fn is_host_name(host: &[u8]) -> bool
    ensures { IsTrue result ↔ IsHostName host.now }
{
    for k in 0..host.len() {
        if !is_host_byte(host, k) {
            return false;
        }
    }
    true
}

/// Whether characters of a host's name or colons are at each place.
fn is_address(inner: &[u8]) -> bool
    ensures { IsTrue result ↔ IsAddress inner.now }
{
    if inner.is_empty() {
        return false;
    }
    for k in 0..inner.len() {
        if inner[k] != b':' && !is_host_byte(inner, k) {
            return false;
        }
    }
    true
}

/// Whether the bytes are nothing, or a colon and digits.
fn is_port(port: &[u8]) -> bool
    ensures { IsTrue result ↔ IsPort port.now }
{
    match port {
        [] => true,
        [first, digits @ ..] => *first == b':' && are_digits(digits),
    }
}

/// The place of the first such byte, or the length where there is none.
fn place_of(bytes: &[u8], stop: u8) -> usize
    ensures within { result ≤ length bytes.now }
    ensures before { All (λ b. b ≢ stop) (take result bytes.now) }
    ensures there { (drop result bytes.now ≡ []) ⊎ (drop result bytes.now ≡ stop ∷ drop (result + 1) bytes.now) }
{
    match memchr(stop, bytes) {
        Some(place) => place,
        None => bytes.len(),
    }
}

/// Whether the bytes are a name, which may have escapes, and then nothing or a port.
fn is_escaped_name_and_port(value: &[u8]) -> bool
    ensures { IsTrue result ↔ ((name port : List ℕ) × IsHostName name × IsPort port × (value.now ≡ name ++ port)) }
{
    let (name, port) = value.split_at(place_of(value, b':'));
    is_host_name(name) && is_port(port)
}

/// Whether the bytes are a name and then nothing or a port. Most names have no escape: they are
/// walked once.
fn is_name_and_port(value: &[u8]) -> bool
    ensures { IsTrue result ↔ ((name port : List ℕ) × IsHostName name × IsPort port × (value.now ≡ name ++ port)) }
{
    let (_, port) = value.split_at(marks_in(value));
    if is_port(port) {
        return true;
    }
    is_escaped_name_and_port(value)
}

/// Whether the bytes after a left bracket are an address, a right one, and then nothing or a port.
fn is_address_and_port(rest: &[u8]) -> bool
    ensures { IsTrue result ↔ ((inner port : List ℕ) × IsAddress inner × IsPort port × (rest.now ≡ inner ++ right_bracket ∷ port)) }
{
    let (inner, end) = rest.split_at(place_of(rest, b']'));
    match end {
        [] => false,
        [_, port @ ..] => is_address(inner) && is_port(port),
    }
}

/// Whether the first byte is a left bracket.
fn is_bracketed(value: &[u8]) -> bool
    ensures { MatchBool result (value.now ≡ left_bracket ∷ drop 1 value.now) ((rest : List ℕ) → value.now ≡ left_bracket ∷ rest → ⊥) }
{
    !value.is_empty() && value[0] == b'['
}

/// Whether the bytes are a host and then nothing or a port.
pub fn is_host_value(value: &[u8]) -> bool
    ensures { IsTrue result ↔ IsHostValue value.now }
{
    if is_bracketed(value) {
        let (_, rest) = value.split_at(1);
        is_address_and_port(rest)
    } else {
        is_name_and_port(value)
    }
}
