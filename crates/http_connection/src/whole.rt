//! A whole request that bytes at hand begin with.
ghost use Rattle.std.specs.Prelude.{◌≡◌, ◌≤◌, ◌+◌, ◌*◌, ℕ, [], length, MatchOption, IfSome};
ghost use Rattle.http_connection.specs.Found.{IsWhole, GivesWhole};
ghost use Rattle.http_connection.specs.Ready.{HasRequest};

use crate::at_end::AtEnd;
use crate::bodies::body_of_request;
use crate::buffer::Buffer;
use crate::chunks::LINE_COUNT_LIMIT;
use crate::conn::{Found, PIECE};
use crate::head::HEAD_LIMIT;
use crate::request::request_behind;
use crate::whole_bodies::has_body;
use http_grammar::{RequestParts, first_request};
use httparse::spans::HeaderSpan;

/// The head of a request that is whole in bytes at hand.
#[derive(Clone, Copy)]
pub(crate) struct Whole {
    /// Its length.
    pub head: usize,
    /// What it says.
    pub parts: RequestParts,
}

/// The whole request that the bytes begin with; None where they begin with none.
pub(crate) fn whole_in(bytes: &[u8], spans: &mut [HeaderSpan], limit: u32) -> Option<Whole>
    requires { length spans.old ≡ LINE_COUNT_LIMIT }
    ensures exact { MatchOption result (HasRequest limit bytes.now → ⊥) (IsWhole limit bytes.now) }
    ensures target { IfSome result (λ w. (w.parts.target.start ≤ w.parts.target.end) × (w.parts.target.end ≤ w.head)) }
{
    match first_request(bytes, spans, limit) {
        Some(first) => {
            if first.len > HEAD_LIMIT {
                return None;
            }
            match first.parts {
                Ok(parts) => {
                    let (_, behind) = bytes.split_at(first.len);
                    if has_body(behind, body_of_request(parts.framing), limit) {
                        Some(Whole {
                            head: first.len,
                            parts,
                        })
                    } else {
                        None
                    }
                }
                Err(_) => None,
            }
        }
        None => None,
    }
}

/// Joins the body to the head of the whole request that the pending bytes begin with.
pub(crate) fn join_whole(buffer: &mut Buffer, whole: Whole, limit: u32) -> Found
    requires room { buffer.old.room ≡ 2 * HEAD_LIMIT + limit + PIECE }
    requires alone { buffer.old.kept ≡ [] }
    requires whole { IsWhole limit buffer.old.pending whole }
    requires target { (whole.parts.target.start ≤ whole.parts.target.end) × (whole.parts.target.end ≤ whole.head) }
    ensures gives { GivesWhole limit buffer.old buffer.new result }
    ensures room { buffer.new.room ≡ buffer.old.room }
{
    match request_behind(buffer, &mut AtEnd, whole.head, whole.parts, limit) {
        Ok(Some(found)) => found,
        Ok(None) => unreachable!(),
        Err(_) => unreachable!(),
    }
}
