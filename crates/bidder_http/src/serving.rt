//! A bidder that answers the messages of a connection.
ghost use Rattle.std.specs.Prelude.{◌≡◌, ◌∷◌, [], IfOk, OnErr, string_bytes};
ghost use Rattle.http_connection.specs.Answers.{Shows};
ghost use Rattle.http_connection.specs.Messages.{Request};
ghost use Rattle.http_service.specs.Connections.{EndsWith, HasCauses};
ghost use Rattle.http_service.specs.declared.limits.TheConstants.{REQUEST_LIMIT};
ghost use Rattle.bidder_http.specs.Pages.{is_served};
ghost use Rattle.bidder_http.specs.Messages.{AnswersMethod, AnswersPage, AnswersTarget, BidderAnswers, BidderGivesUp};

use crate::books::{push_books, push_ledger};
use crate::notice::answer_notice;
use crate::offers::answer_offer;
use crate::page::{Page, page_of};
use adx_http::{ConnEnd, Message, Verb, read_target};
use adx_io::{Sink, Source};
use adx_units::OutOfMemory;
use bidder_core::Bidder;
use http_service::{Answer, Service, disallowed, plain, push_refused, serve_messages};
use std::alloc::Global;

/// Answers what a page is asked that is served.
fn answer_page(
    alloc: Global,
    bidder: &mut Bidder,
    page: Page,
    query: &[u8],
    bytes: &[u8],
    body: &mut String,
) -> Result<Answer, OutOfMemory>
    requires { string_bytes body.old ≡ [] }
    ensures answered { IfOk result (λ a. AnswersPage page bidder.old query.now bytes.now a (string_bytes body.new) bidder.new.rows) }
    ensures kept { OnErr result (bidder.new.rows ≡ bidder.old.rows) }
    ensures line { bidder.new.line ≡ bidder.old.line }
{
    match page {
        Page::Offers => answer_offer(alloc, bidder, bytes, body),
        Page::Notices(kind) => answer_notice(alloc, bidder, kind, query, body),
        Page::Books => {
            push_books(body, bidder)?;
            Ok(plain(200))
        }
        Page::Ledger => {
            push_ledger(body, bidder.ledger())?;
            Ok(plain(200))
        }
    }
}

/// Answers what a page is asked by a method.
fn answer_method(
    alloc: Global,
    bidder: &mut Bidder,
    page: Page,
    verb: Verb,
    query: &[u8],
    bytes: &[u8],
    body: &mut String,
) -> Result<Answer, OutOfMemory>
    requires { string_bytes body.old ≡ [] }
    ensures answered { IfOk result (λ a. AnswersMethod (is_served page verb) page bidder.old query.now bytes.now a
        (string_bytes body.new) bidder.new.rows) }
    ensures kept { OnErr result (bidder.new.rows ≡ bidder.old.rows) }
    ensures line { bidder.new.line ≡ bidder.old.line }
{
    if !page.is_for(verb) {
        push_refused(body, "method")?;
        return Ok(disallowed(page.methods()));
    }
    answer_page(alloc, bidder, page, query, bytes, body)
}

/// Answers a message by its target, its method and its body.
fn answer_target(
    alloc: Global,
    bidder: &mut Bidder,
    target: &[u8],
    verb: Verb,
    bytes: &[u8],
    body: &mut String,
) -> Result<Answer, OutOfMemory>
    requires { string_bytes body.old ≡ [] }
    ensures answered { IfOk result (λ a. AnswersTarget target.now verb bidder.old bytes.now a (string_bytes body.new) bidder.new.rows) }
    ensures kept { OnErr result (bidder.new.rows ≡ bidder.old.rows) }
    ensures line { bidder.new.line ≡ bidder.old.line }
{
    let parts = read_target(target);
    match page_of(parts.path) {
        Some(page) => answer_method(alloc, bidder, page, verb, parts.query, bytes, body),
        None => {
            push_refused(body, "path")?;
            Ok(plain(404))
        }
    }
}

/// A bidder that serves a connection.
#[derive(Drop)]
struct Serving<'a> {
    bidder: &'a mut Bidder,
}

impl Service for Serving<'_> {
    ghost use Rattle.std.specs.Prelude.{◌≡◌, ◌∷◌, [], IfOk, OnErr, string_bytes};
    ghost use Rattle.http_connection.specs.Answers.{Shows};
    ghost use Rattle.http_connection.specs.Messages.{Request};
    ghost use Rattle.bidder_http.specs.Messages.{BidderAnswers, BidderGivesUp};

    ghost answers = { λ s m a body n. BidderAnswers s.bidder.now m a body n.bidder.now };

    ghost gives_up = { λ s m n. BidderGivesUp s.bidder.now m n.bidder.now };

    ghost place = { λ s. s.bidder.ghost_name ∷ [] };

    fn answer(
        &mut self,
        alloc: Global,
        message: &Message<'_>,
        body: &mut String,
    ) -> Result<Answer, OutOfMemory> {
        answer_target(
            alloc,
            self.bidder,
            message.target,
            message.verb,
            message.body,
            body,
        )
    }
}

/// Serves the messages of a connection: what a bidder is asked, sent and shows. The sink takes exactly the replies to
/// the messages that the source brings, or some front of them where it fails, and the ledger is then that of these
/// messages, each notice counted once. How the connection ends, `serve_messages` says.
pub fn serve_bidder<S: Source, K: Sink>(
    alloc: Global,
    bidder: &mut Bidder,
    source: &mut S,
    sink: &mut K,
) -> ConnEnd
    ensures ends { EndsWith BidderAnswers BidderGivesUp REQUEST_LIMIT (S.tape source.old) (S.tape source.new)
        (K.held sink.old) (K.held sink.new) bidder.old bidder.new result }
    ensures causes { HasCauses (S.faults source.old) (S.faults source.new) (K.faults sink.old) (K.faults sink.new) result }
    ensures source { S.place source.new ≡ S.place source.old }
    ensures sink { K.place sink.new ≡ K.place sink.old }
{
    let mut serving = Serving { bidder };
    serve_messages(alloc, &mut serving, source, sink)
}
