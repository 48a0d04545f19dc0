//! Where the head of a message ends in a buffer.
ghost use Rattle.std.specs.Prelude.{◌≡◌, ◌≤◌, ◌<◌, ◌+◌, ◌-◌, ◌^◌, ℕ, length, take, drop, IfOk, OnErr, Ok};
ghost use Rattle.adx_io.specs.Streams.{HasCause};
ghost use Rattle.http_connection.specs.BufferState.{Takes, IsAtEnd};
ghost use Rattle.http_connection.specs.HeadEnds.{is_empty_line, FindsHead};
ghost use Rattle.http_connection.specs.Walks.{step, count_of};

use crate::buffer::Buffer;
use crate::line::{Line, line_end};
use crate::offsets::between;
use adx_io::{Failed, Source};

/// The greatest length of a head, of a chunk line and of a trailer, in bytes.
pub const HEAD_LIMIT: usize = 16_384;

/// Where a head ends.
#[derive(Clone, Copy, Debug, PartialEq, Eq)]
pub enum HeadEnd {
    /// After so many bytes, with so many lines between its first line that isn't empty and the
    /// empty one that ends it.
    At(usize, usize),
    /// Not within `HEAD_LIMIT` bytes.
    TooLong,
    /// Nowhere: the source ended.
    Open,
}

/// How far a head was read.
#[derive(Clone, Copy)]
pub(crate) enum Walk {
    /// There are empty lines alone.
    Blank,
    /// There is a line that isn't empty, and so many after it.
    Full(usize),
    /// The empty line after those was read.
    Over(usize),
}

/// Whether a line, without its line feed, is empty: nothing, or CR alone.
pub fn is_empty_line(line: &[u8]) -> bool
    ensures { result ≡ is_empty_line line.now }
{
    match line {
        [] => true,
        [byte] => *byte == b'\r',
        _ => false,
    }
}

/// Whether the line that ends there is empty.
fn is_empty_at(bytes: &[u8], at: usize, end: usize) -> bool
    requires order { at < end }
    requires within { end ≤ length bytes.now }
    ensures { result ≡ is_empty_line (drop at (take (end - 1) bytes.now)) }
{
    is_empty_line(between(bytes, at, end - 1))
}

/// One line more.
fn walked(walk: Walk, empty: bool) -> Walk
    requires { count_of walk < 2 ^ 32 }
    ensures { result ≡ step walk empty }
{
    match walk {
        Walk::Blank if empty => Walk::Blank,
        Walk::Blank => Walk::Full(0),
        Walk::Full(lines) if empty => Walk::Over(lines),
        Walk::Full(lines) => Walk::Full(lines + 1),
        Walk::Over(lines) => Walk::Over(lines),
    }
}

/// Takes bytes until a head ends in the pending bytes, until `HEAD_LIMIT` bytes hold none, or to the
/// source's end. No byte is searched twice. Where the source fails no head ends in what came.
pub fn head_end<S: Source>(buffer: &mut Buffer, source: &mut S) -> Result<HeadEnd, Failed>
    requires { length buffer.old.kept + HEAD_LIMIT ≤ buffer.old.room }
    ensures takes { Takes buffer.old buffer.new (S.tape source.old) (S.tape source.new) }
    ensures found { IfOk result (FindsHead buffer.new.pending) }
    ensures ended { result ≡ Ok HeadEnd.Open → IsAtEnd (S.tape source.new) }
    ensures unread { OnErr result (FindsHead buffer.new.pending HeadEnd.Open) }
    ensures cause { HasCause (S.faults source.old) (S.faults source.new) result }
    ensures same { S.place source.new ≡ S.place source.old }
{
    let mut at = 0;
    let mut walk = Walk::Blank;
    'lines: loop {
        match line_end(buffer, source, at, HEAD_LIMIT) {
            Ok(Line::At(end)) => match walked(walk, is_empty_at(buffer.pending(), at, end)) {
                Walk::Over(lines) => return Ok(HeadEnd::At(end, lines)),
                next => {
                    walk = next;
                    at = end;
                }
            },
            Ok(Line::TooLong) => return Ok(HeadEnd::TooLong),
            Ok(Line::Open) => return Ok(HeadEnd::Open),
            Err(failed) => return Err(failed),
        }
    }
}
