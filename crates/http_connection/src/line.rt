//! Lines and counts of bytes that a buffer takes from a source.
ghost use Rattle.std.specs.Prelude.{◌≡◌, ◌≤◌, ◌<◌, ◌+◌, ◌++◌, ℕ, List, ◌∷◌, length, take, drop, IfOk, OnErr, Ok, true, false, MatchOption};
ghost use Rattle.adx_io.specs.Streams.{HasCause};
ghost use Rattle.http_connection.specs.BufferState.{Takes, IsAtEnd};
ghost use Rattle.http_connection.specs.Lines.{IsLine, IsFeed, FindsLine};

use crate::buffer::Buffer;
use adx_io::{Failed, Source};
use memchr::memchr;

/// Where a line ends.
#[derive(Clone, Copy, Debug, PartialEq, Eq)]
pub enum Line {
    /// After its line feed, which is within the bound.
    At(usize),
    /// Not within the bound.
    TooLong,
    /// Nowhere: the source ended.
    Open,
}

/// The place of the first line feed.
fn feed_in(bytes: &[u8]) -> Option<usize>
    ensures { MatchOption result (IsLine bytes.now)
        (λ n. (n < length bytes.now) × IsLine (take n bytes.now) × (bytes.now ≡ take n bytes.now ++ 10 ∷ drop (n + 1) bytes.now)) }
{
    memchr(b'\n', bytes)
}

/// The place of the first line feed from a place on.
fn feed_behind(bytes: &[u8], from: usize) -> Option<usize>
    requires { from ≤ length bytes.now }
    ensures { MatchOption result (IsLine (drop from bytes.now)) (IsFeed from bytes.now) }
{
    let (_, behind) = bytes.split_at(from);
    match feed_in(behind) {
        Some(place) => Some(from + place),
        None => None,
    }
}

/// Where a line ends after the place `from` of the bytes at hand. `Open` where none does and there
/// are fewer than `bound` bytes.
pub fn line_in(bytes: &[u8], from: usize, bound: usize) -> Line
    requires { from ≤ length bytes.now }
    ensures { FindsLine from bound bytes.now result }
{
    match feed_behind(bytes, from) {
        Some(feed) if feed < bound => Line::At(feed + 1),
        Some(_) => Line::TooLong,
        None if bytes.len() < bound => Line::Open,
        None => Line::TooLong,
    }
}

/// Takes bytes until a line ends after the place `from` of the pending bytes, until `bound` pending
/// bytes are there, or to the source's end. No byte is searched twice. Where the source fails no line
/// ends in what came.
pub fn line_end<S: Source>(
    buffer: &mut Buffer,
    source: &mut S,
    from: usize,
    bound: usize,
) -> Result<Line, Failed>
    requires from { from ≤ length buffer.old.pending }
    requires room { length buffer.old.kept + bound ≤ buffer.old.room }
    ensures takes { Takes buffer.old buffer.new (S.tape source.old) (S.tape source.new) }
    ensures found { IfOk result (FindsLine from bound buffer.new.pending) }
    ensures ended { result ≡ Ok Line.Open → IsAtEnd (S.tape source.new) }
    ensures unread { OnErr result (FindsLine from bound buffer.new.pending Line.Open) }
    ensures cause { HasCause (S.faults source.old) (S.faults source.new) result }
    ensures same { S.place source.new ≡ S.place source.old }
{
    let mut seen = from;
    'takes: loop {
        match feed_behind(buffer.pending(), seen) {
            Some(place) if place < bound => return Ok(Line::At(place + 1)),
            Some(_) => return Ok(Line::TooLong),
            None => {}
        }
        seen = buffer.pending().len();
        if seen >= bound {
            return Ok(Line::TooLong);
        }
        match buffer.fill(source) {
            Ok(true) => {}
            Ok(false) => return Ok(Line::Open),
            Err(failed) => return Err(failed),
        }
    }
}

/// Takes bytes until `count` are pending; false where the source ends before.
pub fn need<S: Source>(buffer: &mut Buffer, source: &mut S, count: usize) -> Result<bool, Failed>
    requires { length buffer.old.kept + count ≤ buffer.old.room }
    ensures takes { Takes buffer.old buffer.new (S.tape source.old) (S.tape source.new) }
    ensures there { result ≡ Ok true → count ≤ length buffer.new.pending }
    ensures wanting { result ≡ Ok false → length buffer.new.pending < count }
    ensures ended { result ≡ Ok false → IsAtEnd (S.tape source.new) }
    ensures unread { OnErr result (length buffer.new.pending < count) }
    ensures cause { HasCause (S.faults source.old) (S.faults source.new) result }
    ensures same { S.place source.new ≡ S.place source.old }
{
    'takes: loop {
        if buffer.pending().len() >= count {
            return Ok(true);
        }
        match buffer.fill(source) {
            Ok(true) => {}
            Ok(false) => return Ok(false),
            Err(failed) => return Err(failed),
        }
    }
}
