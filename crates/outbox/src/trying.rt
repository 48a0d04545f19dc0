//! Posts that are tried over a link.
ghost use Rattle.std.specs.Prelude.{◌≡◌, ◌≤◌, ◌++◌, IfOk, OnErr, OnOk, [], length, take, drop};
ghost use Rattle.outbox.specs.Pumping.{AreTried, IsTried, TriesCall, left_of, outcome_by, part_of, stays_at};
ghost use Rattle.outbox.specs.Calls.{call_of as call_of_text};

use crate::calling::{Call, call_of};
use crate::post::Post;
use crate::report::Outcome;
use adx_http::{Hearer, exchange};
use adx_links::Link;
use adx_units::OutOfMemory;
use http_connection::{Conn, HttpFault};
use std::alloc::Global;

/// Who hears of an answer whether it is a success (RFC 9110, section 15.3).
#[derive(Clone, Copy)]
struct IsSuccess;

impl Hearer for IsSuccess {
    ghost use Rattle.std.specs.Prelude.{◌≡◌};
    ghost use Rattle.outbox.specs.Pumping.{is_success};

    type Heard = bool;

    ghost hears = { λ hearer status body heard. heard ≡ is_success status };

    fn hear(self, status: u16, _body: &[u8]) -> bool {
        200 <= status && status <= 299
    }
}

/// What came of an exchange.
fn outcome_of(heard: Result<bool, HttpFault>) -> Outcome
    ensures { result ≡ outcome_by heard }
{
    match heard {
        Ok(true) => Outcome::Delivered,
        Ok(false) => Outcome::Answered,
        Err(HttpFault::ReadFault) => Outcome::Failed,
        Err(_fault) => Outcome::Answered,
    }
}

/// Tries a call.
fn try_call<L: Link>(conn: &mut Conn, link: &mut L, call: &Call) -> Outcome
    ensures tried { IsTried L.exchanges L.course L.faults L.place conn.old.limit call.now link.old link.new result }
    ensures limit { conn.new.limit ≡ conn.old.limit }
{
    outcome_of(exchange(
        link,
        conn,
        call.host.as_str(),
        call.port,
        call.request.as_bytes(),
        IsSuccess,
    ))
}

/// Tries a post. Where memory is wanting the link isn't touched.
fn try_post<L: Link>(
    alloc: Global,
    conn: &mut Conn,
    link: &mut L,
    post: &Post,
) -> Result<Outcome, OutOfMemory>
    ensures tried { IfOk result (λ o. TriesCall L.exchanges L.course L.faults L.place conn.old.limit
        (call_of_text post.now.url) link.old link.new o) }
    ensures untouched { OnErr result (link.new ≡ link.old) }
    ensures limit { conn.new.limit ≡ conn.old.limit }
{
    match call_of(alloc, post.url.as_str())? {
        None => Ok(Outcome::Undeliverable),
        Some(call) => Ok(try_call(conn, link, &call)),
    }
}

/// Tries the posts in order, and adds what came of each; stops where memory is wanting.
pub(crate) fn try_all<L: Link>(
    alloc: Global,
    conn: &mut Conn,
    link: &mut L,
    posts: &[Post],
    outcomes: &mut Vec<Outcome>,
) -> Result<(), OutOfMemory>
    requires none { outcomes.old.items ≡ [] }
    ensures few { length outcomes.new.items ≤ length posts.now }
    ensures all { OnOk result (length outcomes.new.items ≡ length posts.now) }
    ensures tried { AreTried L.exchanges L.course L.faults L.place conn.old.limit
        (take (length outcomes.new.items) posts.now) outcomes.new.items link.old link.new }
    ensures limit { conn.new.limit ≡ conn.old.limit }
{
    outcomes.reserve(posts.len())?;
    for post in posts {
        let outcome = try_post(alloc, conn, link, post)?;
        outcomes.push_reserved(outcome);
    }
    Ok(())
}

/// Whether a post stays pending behind these tries.
fn stays(outcomes: &[Outcome], at: usize) -> bool
    ensures { result ≡ stays_at outcomes.now at }
{
    match outcomes.get(at) {
        Some(outcome) => outcome.stays(),
        None => true,
    }
}

/// So many of the posts, from a place on.
pub(crate) fn part_of(posts: &[Post], first: usize, most: usize) -> &[Post]
    ensures { result.now ≡ part_of first most posts.now }
{
    let (_before, rest) = posts.split_at(first.min(posts.len()));
    let (part, _behind) = rest.split_at(most.min(rest.len()));
    part
}

/// Keeps the posts that stay behind tries of those from a place on, in their order, and all others, without memory.
pub(crate) fn keep_left(posts: &mut Vec<Post>, first: usize, outcomes: &[Outcome])
    ensures { posts.new.items ≡ take first posts.old.items ++ left_of (drop first posts.old.items) outcomes.now }
{
    let begin = first.min(posts.len());
    let mut count = begin;
    for at in 0..posts.len() - begin {
        if stays(outcomes, at) {
            posts.swap(count, begin + at);
            count += 1;
        }
    }
    posts.truncate(count);
}
