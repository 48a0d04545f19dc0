//! A body in chunks (RFC 9112, section 7.1).
ghost use Rattle.std.specs.Prelude.{◌≡◌, ◌≤◌, ◌<◌, ◌+◌, ◌-◌, ◌^◌, ℕ, length, take, drop, Bool, MatchOption};
ghost use Rattle.http_connection.specs.HeadEnds.{is_empty_line};
ghost use Rattle.http_connection.specs.Steps.{Advances, ReadsBy, BodyGives, LineGives, DataGives, TrailerGives, IsLineOf, IsNoLine, ends_behind};
ghost use Rattle.http_connection.specs.declared.bodies.Body.{Body};

use crate::buffer::Buffer;
use crate::head::{HEAD_LIMIT, is_empty_line};
use crate::line::{Line, line_end, need};
use adx_io::Source;
use http_grammar::HttpFault;
use httparse::{Status, parse_chunk_size};

/// The greatest number of lines of a trailer, and of those after the first of a head.
pub const LINE_COUNT_LIMIT: usize = 64;

/// The size that a chunk line says; None where the bytes are no chunk line.
pub(crate) fn size_of(line: &[u8]) -> Option<u64>
    ensures { MatchOption result (IsNoLine line.now) (IsLineOf line.now) }
{
    match parse_chunk_size(line) {
        Ok(Status::Complete((len, size))) => { if len == line.len() { Some(size) } else { None } }
        Ok(Status::Partial) => None,
        Err(_) => None,
    }
}

/// Passes over a chunk line, and says its size.
fn read_chunk_line<S: Source>(buffer: &mut Buffer, source: &mut S) -> Result<u64, HttpFault>
    requires { length buffer.old.kept + HEAD_LIMIT ≤ buffer.old.room }
    ensures gives { LineGives buffer.old buffer.new (S.tape source.old) (S.tape source.new) result }
    ensures room { buffer.new.room ≡ buffer.old.room }
    ensures advances { Advances (S.tape source.old) (S.tape source.new) }
    ensures cause { ReadsBy (S.faults source.old) (S.faults source.new) result }
    ensures same { S.place source.new ≡ S.place source.old }
{
    match line_end(buffer, source, 0, HEAD_LIMIT) {
        Ok(Line::At(end)) => {
            let (line, _) = buffer.pending().split_at(end);
            match size_of(line) {
                Some(size) => {
                    buffer.skip(end);
                    Ok(size)
                }
                None => Err(HttpFault::BadChunk),
            }
        }
        Ok(Line::TooLong) => Err(HttpFault::BadChunk),
        Ok(Line::Open) => Err(HttpFault::Cut),
        Err(_) => Err(HttpFault::ReadFault),
    }
}

/// Whether CR and LF come after so many bytes.
pub(crate) fn ends_behind(bytes: &[u8], size: usize) -> bool
    requires { size + 2 ≤ length bytes.now }
    ensures { result ≡ ends_behind bytes.now size }
{
    let (_, behind) = bytes.split_at(size);
    let (end, _) = behind.split_at(2);
    end == b"\r\n".as_slice()
}

/// Joins the data of a chunk to what is kept, and passes over its end.
fn read_chunk_data<S: Source>(
    buffer: &mut Buffer,
    source: &mut S,
    size: usize,
) -> Result<(), HttpFault>
    requires small { size < 2 ^ 32 }
    requires room { length buffer.old.kept + size + 2 ≤ buffer.old.room }
    ensures gives { DataGives size buffer.old buffer.new (S.tape source.old) (S.tape source.new) result }
    ensures room { buffer.new.room ≡ buffer.old.room }
    ensures advances { Advances (S.tape source.old) (S.tape source.new) }
    ensures cause { ReadsBy (S.faults source.old) (S.faults source.new) result }
    ensures same { S.place source.new ≡ S.place source.old }
{
    match need(buffer, source, size + 2) {
        Ok(true) => {
            if !ends_behind(buffer.pending(), size) {
                return Err(HttpFault::BadChunk);
            }
            buffer.keep(size);
            buffer.skip(2);
            Ok(())
        }
        Ok(false) => Err(HttpFault::Cut),
        Err(_) => Err(HttpFault::ReadFault),
    }
}

/// Whether the line that ends there is empty.
pub(crate) fn is_empty_to(bytes: &[u8], at: usize, end: usize) -> bool
    requires order { at < end }
    requires within { end ≤ length bytes.now }
    ensures { result ≡ is_empty_line (drop at (take (end - 1) bytes.now)) }
{
    let (front, _) = bytes.split_at(end - 1);
    let (_, line) = front.split_at(at);
    is_empty_line(line)
}

/// Passes over a trailer.
fn read_trailer<S: Source>(buffer: &mut Buffer, source: &mut S) -> Result<(), HttpFault>
    requires { length buffer.old.kept + HEAD_LIMIT ≤ buffer.old.room }
    ensures gives { TrailerGives buffer.old buffer.new (S.tape source.old) (S.tape source.new) result }
    ensures room { buffer.new.room ≡ buffer.old.room }
    ensures advances { Advances (S.tape source.old) (S.tape source.new) }
    ensures cause { ReadsBy (S.faults source.old) (S.faults source.new) result }
    ensures same { S.place source.new ≡ S.place source.old }
{
    let mut at = 0;
    let mut lines = 0;
    'lines: loop {
        match line_end(buffer, source, at, HEAD_LIMIT) {
            Ok(Line::At(end)) => {
                if is_empty_to(buffer.pending(), at, end) {
                    buffer.skip(end);
                    return Ok(());
                }
                if lines == LINE_COUNT_LIMIT {
                    return Err(HttpFault::BadChunk);
                }
                lines += 1;
                at = end;
            }
            Ok(Line::TooLong) => return Err(HttpFault::BadChunk),
            Ok(Line::Open) => return Err(HttpFault::Cut),
            Err(_) => return Err(HttpFault::ReadFault),
        }
    }
}

/// Joins the data of all chunks to what is kept.
pub(crate) fn read_chunks<S: Source>(
    buffer: &mut Buffer,
    source: &mut S,
    limit: u32,
) -> Result<(), HttpFault>
    requires { length buffer.old.kept + limit + HEAD_LIMIT + 2 ≤ buffer.old.room }
    ensures gives { BodyGives limit Body.Chunked buffer.old buffer.new (S.tape source.old) (S.tape source.new) result }
    ensures room { buffer.new.room ≡ buffer.old.room }
    ensures advances { Advances (S.tape source.old) (S.tape source.new) }
    ensures cause { ReadsBy (S.faults source.old) (S.faults source.new) result }
    ensures same { S.place source.new ≡ S.place source.old }
{
    let mut room = limit as u64;
    'chunks: loop {
        match read_chunk_line(buffer, source) {
            Ok(size) => {
                if size == 0 {
                    return read_trailer(buffer, source);
                }
                if size > room {
                    return Err(HttpFault::BodyTooLong);
                }
                match read_chunk_data(buffer, source, size as usize) {
                    Ok(_) => room -= size,
                    Err(cause) => return Err(cause),
                }
            }
            Err(fault) => return Err(fault),
        }
    }
}
