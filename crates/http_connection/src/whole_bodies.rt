//! Bodies that lie whole in bytes at hand.
ghost use Rattle.std.specs.Prelude.{◌≡◌, ◌≤◌, ◌<◌, ◌+◌, ◌-◌, ◌^◌, ◌⊎◌, ℕ, List, ◌++◌, length, take, drop, MatchBool, MatchOption};
ghost use Rattle.httparse.specs.Ascii.{crlf_bytes};
ghost use Rattle.http_connection.specs.Chunks.{BeginsChunk, IsBadLine, IsOpenLine, IsTrailer, IsBadTrailer, IsOpenTrailer, EndsBadly};
ghost use Rattle.http_connection.specs.BodyForms.{HasBody, LacksBody};
ghost use Rattle.http_connection.specs.declared.bodies.Body.{Body};

use crate::bodies::Body;
use crate::chunks::{LINE_COUNT_LIMIT, ends_behind, is_empty_to, size_of};
use crate::head::HEAD_LIMIT;
use crate::line::{Line, line_in};

/// The size that a chunk line says, and the bytes after it; None where the bytes begin with none.
fn chunk_line_in(bytes: &[u8]) -> Option<(u64, &[u8])>
    ensures { MatchOption result (IsBadLine bytes.now ⊎ IsOpenLine bytes.now) (λ c. BeginsChunk bytes.now c.0 c.1.now) }
{
    match line_in(bytes, 0, HEAD_LIMIT) {
        Line::At(end) => {
            let (line, behind) = bytes.split_at(end);
            match size_of(line) {
                Some(size) => Some((size, behind)),
                None => None,
            }
        }
        Line::TooLong => None,
        Line::Open => None,
    }
}

/// The bytes after a chunk's data and its end; None where they aren't there.
fn behind_data(bytes: &[u8], size: usize) -> Option<&[u8]>
    requires { size < 2 ^ 32 }
    ensures { MatchOption result (EndsBadly size bytes.now ⊎ (length bytes.now < size + 2))
        (λ rest. (b : List ℕ) × (length b ≡ size) × (bytes.now ≡ (b ++ crlf_bytes) ++ rest.now)) }
{
    if bytes.len() < size + 2 {
        return None;
    }
    if !ends_behind(bytes, size) {
        return None;
    }
    let (_, rest) = bytes.split_at(size + 2);
    Some(rest)
}

/// Whether the bytes begin with a whole trailer.
fn has_trailer(bytes: &[u8]) -> bool
    ensures { MatchBool result ((trailer rest : List ℕ) × IsTrailer trailer × (bytes.now ≡ trailer ++ rest))
        (IsBadTrailer bytes.now ⊎ IsOpenTrailer bytes.now) }
{
    let mut at = 0;
    let mut lines = 0;
    'lines: loop {
        match line_in(bytes, at, HEAD_LIMIT) {
            Line::At(end) => {
                if is_empty_to(bytes, at, end) {
                    return true;
                }
                if lines == LINE_COUNT_LIMIT {
                    return false;
                }
                lines += 1;
                at = end;
            }
            Line::TooLong => return false,
            Line::Open => return false,
        }
    }
}

/// Whether the bytes begin with a whole body in chunks.
fn has_chunks(bytes: &[u8], limit: u32) -> bool
    ensures { MatchBool result (HasBody limit Body.Chunked bytes.now) (LacksBody limit Body.Chunked bytes.now) }
{
    let mut rest = bytes;
    let mut room = limit as u64;
    'chunks: loop {
        match chunk_line_in(rest) {
            Some((size, behind)) => {
                if size == 0 {
                    return has_trailer(behind);
                }
                if size > room {
                    return false;
                }
                match behind_data(behind, size as usize) {
                    Some(next) => {
                        room -= size;
                        rest = next;
                    }
                    None => return false,
                }
            }
            None => return false,
        }
    }
}

/// Whether the bytes at hand begin with a whole body, where they are all that come.
pub fn has_body(bytes: &[u8], body: Body, limit: u32) -> bool
    ensures { MatchBool result (HasBody limit body bytes.now) (LacksBody limit body bytes.now) }
{
    match body {
        Body::Absent => true,
        Body::Sized(size) => size <= bytes.len(),
        Body::Chunked => has_chunks(bytes, limit),
        Body::ToEnd => bytes.len() <= limit as usize,
    }
}
