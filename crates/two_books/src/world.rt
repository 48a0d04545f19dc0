//! A world of two books, of which they agree at every moment.
ghost use Rattle.std.specs.Prelude.{◌≡◌, ◌≤◌, [], IfOk, length};
ghost use Rattle.two_books.specs.Steps.{IsTimely, StepsTo};
ghost use Rattle.two_books.specs.TwoBooks.{BillsAgree, day_sum, ledger_sum};
ghost use Rattle.two_books.specs.Worlds.{IsNew};
ghost use Rattle.two_books.specs.EqualSums.{HasEachBill, HasNothingLeft, HasSums};

use crate::books::Books;
use crate::late::Late;
use crate::step::Step;
use adx_units::OutOfMemory;
use bidder_core::Bidder;
use day_machine::Day;
use deal_floor::Roster;
use outbox::{Call, Post};
use std::alloc::Global;
use std::marker::Model;

/// An exchange's day with its outbox, the messages that it ever sent, and a bidder with its ledger. Whatever steps it took,
/// each bill that the bidder counted is one of the exchange's, with the same auction and charge, and no two are the same. So
/// the sum of those that it counted is never above the exchange's; where nothing of a bill is left over they are equal; and
/// where they are equal no billed award is missing from the ledger.
#[derive(Drop)]
pub struct World {
    books: Books,
}

impl Model for World {
    ghost use Rattle.two_books.specs.Holding.{Holds};
    ghost use Rattle.two_books.specs.Worlds.{WorldState};
    ghost use Rattle.two_books.specs.Settling.{Settles};

    ghost Value = { WorldState };

    ghost view = { λ w. w.books };

    ghost invariant = { λ w. Holds w.books × Settles w.books };
}

impl World {
    /// A world before its first step: the exchange's roster has one bidder, which heard of nothing yet.
    pub fn new(alloc: Global, roster: Roster, bidder: Bidder) -> Result<World, OutOfMemory>
        requires one { length roster.bidders ≡ 1 }
        requires none { bidder.rows ≡ [] }
        ensures new { IfOk result (IsNew roster bidder) }
        ensures sums { IfOk result HasSums }
    {
        let books = Books::new(alloc, roster, bidder)?;
        Ok(World { books })
    }

    /// The exchange's day.
    pub fn day(&self) -> &Day
        ensures { result.now ≡ self.now.exchange.day }
    {
        self.books.day()
    }

    /// The bidder with its ledger. Each bill of it is one of the exchange's, and no two are the same.
    pub fn bidder(&self) -> &Bidder
        ensures bidder { result.now ≡ self.now.bidder }
        ensures agree { BillsAgree self.now.exchange.day.history self.now.bidder.rows }
    {
        self.books.bidder()
    }

    /// The messages that the exchange ever sent, in their order.
    pub fn messages(&self) -> &[Call]
        ensures { result.now ≡ self.now.messages }
    {
        self.books.messages()
    }

    /// The replies that are on their way to the exchange, in the order in which their messages were brought to the bidder. One
    /// that came may come again.
    pub fn replies(&self) -> &[Late]
        ensures { result.now ≡ self.now.replies }
    {
        self.books.replies()
    }

    /// The pending posts, in the order of the entries that asked for them.
    pub fn pending(&self) -> &[Post]
        ensures { result.now ≡ self.now.exchange.outbox.pending }
    {
        self.books.pending()
    }

    /// How many posts couldn't be sent since the exchange's last restart. The count stays at its last value.
    pub fn undeliverable(&self) -> u32
        ensures { result ≡ self.now.exchange.outbox.undeliverable }
    {
        self.books.undeliverable()
    }

    /// Takes a step. Where memory is refused some first of what the step does is done. After it, and so after every list
    /// of steps, the bills of the bidder's ledger are bills of the exchange's history.
    pub fn step(&mut self, step: &Step) -> Result<(), OutOfMemory>
        requires { IsTimely step.now }
        ensures does { StepsTo step.now result self.old self.new }
        ensures agree { BillsAgree self.new.exchange.day.history self.new.bidder.rows }
        ensures below { ledger_sum self.new.bidder.rows ≤ day_sum self.new.exchange.day.history }
        ensures equal { HasNothingLeft self.new → ledger_sum self.new.bidder.rows ≡ day_sum self.new.exchange.day.history }
        ensures whole { ledger_sum self.new.bidder.rows ≡ day_sum self.new.exchange.day.history
            → HasEachBill self.new.exchange.day.history self.new.bidder.rows }
    {
        self.books.step(step)
    }
}
