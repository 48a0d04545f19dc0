//! The two books: an exchange with the messages that it ever sent, and a bidder. What each step does.
ghost use Rattle.std.specs.Prelude.{◌≡◌, IfOk, IsUtf8};
ghost use Rattle.adx_units.specs.Ids.{IsSized};
ghost use Rattle.two_books.specs.Names.{IsName, IsNamed};
ghost use Rattle.two_books.specs.Steps.{IsTimely, StepsTo};
ghost use Rattle.two_books.specs.Worlds.{IsNew};
ghost use Rattle.two_books.specs.declared.step.Step.{Step as StepValue};

use crate::acknowledging::acknowledge;
use crate::answering::answer_of;
use crate::delivery::bring;
use crate::exchange::Exchange;
use crate::late::Late;
use crate::pumping::pump;
use crate::step::{Fate, Step};
use adx_units::OutOfMemory;
use bidder_core::Bidder;
use day_machine::Day;
use deal_floor::Roster;
use outbox::{Call, Post};
use rtb_request::BidRequest;
use std::alloc::Global;
use std::marker::Model;

/// An exchange, the messages that it ever sent, and a bidder, whatever they came from.
#[derive(Drop)]
pub(crate) struct Books {
    alloc: Global,
    exchange: Exchange,
    messages: Vec<Call>,
    bidder: Bidder,
    replies: Vec<Late>,
}

impl Model for Books {
    ghost use Rattle.two_books.specs.Worlds.{WorldState};

    ghost Value = { WorldState };

    ghost view = { λ w. record { exchange = w.exchange; messages = w.messages.items; bidder = w.bidder; replies = w.replies.items } };
}

/// The bytes of an id are a name.
fn note_name(bytes: &[u8])
    requires sized { IsSized bytes.now }
    requires utf8 { IsUtf8 bytes.now }
    ensures { IsName bytes.now }
{}

impl Books {
    /// The books before their first step.
    pub(crate) fn new(alloc: Global, roster: Roster, bidder: Bidder) -> Result<Books, OutOfMemory>
        ensures { IfOk result (IsNew roster bidder) }
    {
        Ok(Books {
            alloc,
            exchange: Exchange::new(alloc, roster)?,
            messages: Vec::new(alloc),
            bidder,
            replies: Vec::new(alloc),
        })
    }

    /// The exchange's day.
    pub(crate) fn day(&self) -> &Day
        ensures { result.now ≡ self.now.exchange.day }
    {
        self.exchange.day()
    }

    /// The bidder with its ledger.
    pub(crate) fn bidder(&self) -> &Bidder
        ensures { result.now ≡ self.now.bidder }
    {
        &self.bidder
    }

    /// The messages that the exchange ever sent, in their order.
    pub(crate) fn messages(&self) -> &[Call]
        ensures { result.now ≡ self.now.messages }
    {
        self.messages.as_slice()
    }

    /// The pending posts, in the order of the entries that asked for them.
    pub(crate) fn pending(&self) -> &[Post]
        ensures { result.now ≡ self.now.exchange.outbox.pending }
    {
        self.exchange.pending()
    }

    /// How many posts couldn't be sent since the exchange's last restart. The count stays at its last value.
    pub(crate) fn undeliverable(&self) -> u32
        ensures { result ≡ self.now.exchange.outbox.undeliverable }
    {
        self.exchange.undeliverable()
    }

    /// The replies that are on their way to the exchange, in the order in which their messages were brought.
    pub(crate) fn replies(&self) -> &[Late]
        ensures { result.now ≡ self.now.replies }
    {
        self.replies.as_slice()
    }

    /// Takes a step. Where memory is refused some first of what the step does is done.
    pub(crate) fn step(&mut self, step: &Step) -> Result<(), OutOfMemory>
        requires { IsTimely step.now }
        ensures does { StepsTo step.now result self.old self.new }
        ensures named { IsNamed step.now }
    {
        match step {
            Step::Ask { request, now } => self.ask(request, *now),
            Step::Notice { kind, award } => self.exchange.notice(*kind, *award),
            Step::Tick { now } => self.exchange.tick(*now),
            Step::Budget {
                campaign,
                change,
                budget,
            } => self.exchange.set_budget(*campaign, *change, *budget),
            Step::Pump { fates } => self.pump(fates.as_slice()),
            Step::Again { message } => self.again(*message),
            Step::Acknowledge { reply } => self.acknowledge(*reply),
            Step::RestartExchange => self.exchange.restart(),
            Step::RestartBidder => Ok(()),
        }
    }

    /// Asks the exchange; the bidder answers for itself.
    fn ask(&mut self, request: &BidRequest, now: u64) -> Result<(), OutOfMemory>
        requires { IsTimely (StepValue.Ask request.now now) }
        ensures does { StepsTo (StepValue.Ask request.entry.now now) result self.old self.new }
        ensures named { IsName request.entry.now.id }
    {
        // The request's id is a name, which its notices bring back.
        note_name(request.id.as_bytes());
        match answer_of(self.alloc, &self.bidder, request) {
            Ok(answer) => self.exchange.ask(request, answer, now),
            Err(wanting) => Err(wanting),
        }
    }

    /// Pumps the outbox; the messages meet these fates.
    fn pump(&mut self, fates: &[Fate]) -> Result<(), OutOfMemory>
        ensures { StepsTo (StepValue.Pump fates.now) result self.old self.new }
    {
        pump(
            self.alloc,
            &mut self.exchange,
            &mut self.messages,
            &mut self.bidder,
            fates,
        )
    }

    /// Brings a message to the bidder once more, and puts its reply on its way.
    fn again(&mut self, message: u32) -> Result<(), OutOfMemory>
        ensures { StepsTo (StepValue.Again message) result self.old self.new }
    {
        match self.messages.as_slice().get(message as usize) {
            None => Ok(()),
            Some(sent) => bring(
                self.alloc,
                &mut self.bidder,
                &mut self.replies,
                &sent.request,
            ),
        }
    }

    /// A reply that is on its way comes to the exchange.
    fn acknowledge(&mut self, reply: u32) -> Result<(), OutOfMemory>
        ensures { StepsTo (StepValue.Acknowledge reply) result self.old self.new }
    {
        match self.replies.as_slice().get(reply as usize) {
            None => Ok(()),
            Some(late) => acknowledge(self.alloc, &mut self.exchange, late),
        }
    }
}
