//! An exchange: its day, and the outbox that follows it.
ghost use Rattle.std.specs.Prelude.{◌≡◌, ◌<◌, ◌≤◌, ◌^◌, ◌∷◌, [], IfOk, IfSome, OnErr, OnOk, length, option_copied};
ghost use Rattle.day_rules.specs.Asks.{IsUndecided, IsWellFormed};
ghost use Rattle.day_rules.specs.DayState.{IsDay};
ghost use Rattle.day_rules.specs.Legal.{MayFollow};
ghost use Rattle.campaign_book.specs.Accounts.{IsBudget};
ghost use Rattle.day_rules.specs.Entries.{change_of};
ghost use Rattle.day_rules.specs.Replies.{ask as ask_call, notice as notice_call, set_budget as set_budget_call, tick as tick_call, with_entry};
ghost use Rattle.script_lines.specs.Making.{ask_of};
ghost use Rattle.outbox.specs.Pumping.{Pumps, PumpsPart};
ghost use Rattle.outbox.specs.declared.outbox.TheConstants.{ANSWER_LIMIT};
ghost use Rattle.two_books.specs.Exchanges.{FollowsOn, HasHistory, IsCalled, IsKept, IsNoticed, IsOpened, IsRestarted, auction_of as auction_in};

use crate::opening::day_of;
use adx_links::Link;
use adx_units::{Id, OutOfMemory, Units};
use day_machine::{Ask, Day, Entry};
use deal_floor::Roster;
use notice_book::NoticeKind;
use outbox::{Outbox, Post, Report};
use rtb_request::BidRequest;
use rtb_response::BidAnswer;
use script_lines::make_ask;
use std::alloc::Global;
use std::marker::Model;

/// An exchange with one bidder or more. A contract sees its campaigns, its day and its outbox.
#[derive(Drop)]
pub(crate) struct Exchange {
    alloc: Global,
    roster: Roster,
    day: Day,
    outbox: Outbox,
}

impl Model for Exchange {
    ghost use Rattle.two_books.specs.Exchanges.{ExchangeState, IsExchange};

    ghost Value = { ExchangeState };

    ghost view = { λ e. record { campaigns = e.roster.campaigns; day = e.day; outbox = e.outbox } };

    ghost invariant = { λ e. IsExchange e.roster.campaigns e.day.terms e.day.history e.outbox };
}

impl Exchange {
    /// An exchange before its first call.
    pub(crate) fn new(alloc: Global, roster: Roster) -> Result<Exchange, OutOfMemory>
        ensures { IfOk result (IsOpened roster) }
    {
        let day = day_of(alloc, &roster)?;
        let outbox = Outbox::new(alloc)?;
        Ok(Exchange {
            alloc,
            roster,
            day,
            outbox,
        })
    }

    /// The day.
    pub(crate) fn day(&self) -> &Day
        ensures { result.now ≡ self.now.day }
    {
        &self.day
    }

    /// The pending posts.
    pub(crate) fn pending(&self) -> &[Post]
        ensures { result.now ≡ self.now.outbox.pending }
    {
        self.outbox.pending()
    }

    /// How many posts couldn't be sent since the exchange began.
    pub(crate) fn undeliverable(&self) -> u32
        ensures { result ≡ self.now.outbox.undeliverable }
    {
        self.outbox.undeliverable()
    }

    /// Adds the entry of a reply, if it has one.
    fn add(&mut self, entry: Option<Entry>) -> Result<(), OutOfMemory>
        requires day { IsDay self.old.day.terms self.old.day.history }
        requires follows { IfSome entry (MayFollow self.old.day.terms self.old.day.history) }
        ensures added { OnOk result (HasHistory (with_entry self.old.day.history entry) self.old self.new) }
        ensures legal { OnOk result (IsDay self.new.day.terms self.new.day.history) }
        ensures kept { OnErr result (IsKept self.old self.new) }
    {
        match entry {
            None => Ok(()),
            Some(entry) => {
                match self.day.prepare(&entry) {
                    Ok(()) => {}
                    Err(wanting) => return Err(wanting),
                }
                self.day.commit(entry);
                Ok(())
            }
        }
    }

    /// The exchange is asked, and its first bidder answers so; the others don't.
    pub(crate) fn ask(
        &mut self,
        request: &BidRequest,
        answer: Option<BidAnswer>,
        now: u64,
    ) -> Result<(), OutOfMemory>
        requires { now < 2 ^ 63 }
        ensures called { OnOk result (IsCalled (ask_call (ask_of request.now self.old.campaigns (answer ∷ []) now)) self.old self.new) }
        ensures kept { OnErr result (IsKept self.old self.new) }
    {
        match self.ask_of(request, answer, now) {
            Ok(ask) => {
                let (_answer, entry) = self.day.plan_ask(ask);
                self.add(entry)
            }
            Err(wanting) => Err(wanting),
        }
    }

    /// The ask of a request that the first bidder answers so.
    fn ask_of(
        &self,
        request: &BidRequest,
        answer: Option<BidAnswer>,
        now: u64,
    ) -> Result<Ask, OutOfMemory>
        requires { now < 2 ^ 63 }
        ensures is { IfOk result (λ a. a ≡ ask_of request.entry.now self.now.campaigns (answer ∷ []) now) }
        ensures formed { IfOk result (IsWellFormed (length self.now.day.terms.budgets)) }
        ensures undecided { IfOk result IsUndecided }
    {
        let mut answers = Vec::with_capacity(self.alloc, 1)?;
        answers.push(answer)?;
        make_ask(self.alloc, request, &self.roster, answers, now)
    }

    /// The auction of an award.
    fn auction_of(&self, award: u32) -> Option<&Id>
        ensures { option_copied result ≡ auction_in self.now.day.history award }
    {
        let sold = self.day.awards().get(award)?;
        match self.day.entries().get(sold.ask as usize) {
            Some(Entry::Ask(ask)) => Some(&ask.auction),
            Some(
                Entry::Win { .. }
                | Entry::Bill { .. }
                | Entry::Loss { .. }
                | Entry::Expire { .. }
                | Entry::Budget { .. },
            )
            | None => None,
        }
    }

    /// The exchange is given an award, under its auction.
    pub(crate) fn notice(&mut self, kind: NoticeKind, award: u32) -> Result<(), OutOfMemory>
        ensures called { OnOk result (IsNoticed (auction_in self.old.day.history award) (λ auction. notice_call kind auction award) self.old self.new) }
        ensures kept { OnErr result (IsKept self.old self.new) }
    {
        let (_answer, entry) = match self.auction_of(award) {
            None => return Ok(()),
            Some(auction) => self.day.plan_notice(kind, auction.as_str(), award),
        };
        self.add(entry)
    }

    /// Time has come to a moment.
    pub(crate) fn tick(&mut self, now: u64) -> Result<(), OutOfMemory>
        requires { now < 2 ^ 63 }
        ensures called { OnOk result (IsCalled (tick_call now) self.old self.new) }
        ensures kept { OnErr result (IsKept self.old self.new) }
    {
        let (_answer, entry) = self.day.plan_tick(now);
        self.add(entry)
    }

    /// A campaign's budget is set, by a change with this number.
    pub(crate) fn set_budget(
        &mut self,
        campaign: u32,
        change: u32,
        budget: Units,
    ) -> Result<(), OutOfMemory>
        requires change { 1 ≤ change }
        requires budget { IsBudget budget }
        ensures called { OnOk result (IsCalled (set_budget_call (change_of campaign change budget)) self.old self.new) }
        ensures kept { OnErr result (IsKept self.old self.new) }
    {
        let (_answer, entry) = self.day.plan_budget(campaign, change, budget);
        self.add(entry)
    }

    /// The outbox follows the day.
    pub(crate) fn follow(&mut self) -> Result<(), OutOfMemory>
        ensures { FollowsOn result self.old self.new }
    {
        let (_followed, later) = self.day.entries().split_at(self.outbox.followed() as usize);
        self.outbox.follow(later)
    }

    /// Tries each pending post once over the link.
    pub(crate) fn pump<L: Link>(&mut self, link: &mut L) -> Result<Report, OutOfMemory>
        ensures pumps { Pumps L.exchanges L.course L.faults L.place ANSWER_LIMIT link.old link.new result self.old.outbox self.new.outbox }
        ensures day { self.new.day ≡ self.old.day }
        ensures campaigns { self.new.campaigns ≡ self.old.campaigns }
    {
        self.outbox.pump(link)
    }

    /// Tries the pending post in that place once over the link.
    pub(crate) fn pump_one<L: Link>(
        &mut self,
        place: usize,
        link: &mut L,
    ) -> Result<Report, OutOfMemory>
        ensures pumps { PumpsPart L.exchanges L.course L.faults L.place ANSWER_LIMIT place 1 link.old link.new result self.old.outbox self.new.outbox }
        ensures day { self.new.day ≡ self.old.day }
        ensures campaigns { self.new.campaigns ≡ self.old.campaigns }
    {
        self.outbox.pump_part(place, 1, link)
    }

    /// The exchange starts anew: it keeps its history, and its outbox begins again before the first entry. As before if memory is refused.
    pub(crate) fn restart(&mut self) -> Result<(), OutOfMemory>
        ensures restarted { OnOk result (IsRestarted self.old self.new) }
        ensures kept { OnErr result (self.new ≡ self.old) }
    {
        match Outbox::new(self.alloc) {
            Ok(outbox) => {
                self.outbox = outbox;
                Ok(())
            }
            Err(wanting) => Err(wanting),
        }
    }
}
