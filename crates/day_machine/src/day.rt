//! One serving day.
ghost use Rattle.std.specs.Prelude.{◌≡◌, ◌==◌, ◌≢◌, ◌∷◌, ◌++◌, ◌^◌, ◌<◌, ◌≤◌, ◌↔◌, [], None, length, if◌then◌else◌, IfOk, IfSome, IsTrue, OnOk, slice_get, Some};
ghost use Rattle.std.specs.List.{list_any};
ghost use Rattle.std.specs.Option.{option_map};
ghost use Rattle.allocator_core.specs.declared.reason.TheConstants.{AWARDED as AWARDED_MARK};
ghost use Rattle.notice_book.specs.AwardList.{Counts};
ghost use Rattle.notice_book.specs.declared.award.Award.{Award as AwardValue};
ghost use Rattle.day_rules.specs.Asks.{IsUndecided, IsWellFormed, settled};
ghost use Rattle.day_rules.specs.Books.{accounts_in, awards_of, entries_to_come, sales_of};
ghost use Rattle.day_rules.specs.DayState.{HasRoomFor, HasRoomForAsk, HasRoomForChange, IsDay};
ghost use Rattle.day_rules.specs.Entries.{change_of, entry_of_notice};
ghost use Rattle.campaign_book.specs.Accounts.{IsBudget};
ghost use Rattle.day_rules.specs.Changes.{last_change, same_change};
ghost use Rattle.day_rules.specs.Legal.{AskMayFollow, BudgetMayFollow, ExpireMayFollow, MayFollow};
ghost use Rattle.day_rules.specs.Replies.{ask_of, ask_reply, budget_reply, new_change_reply, notice_reply, ruled_reply, sale_reply, seen_in, settled_reply, tick_reply};
ghost use Rattle.notice_book.specs.Rules.{ruling_of};
ghost use Rattle.day_rules.specs.Terms.{AreTerms, budgets_after, terms_of};
ghost use Rattle.day_machine.specs.Answered.{entry_if, is_counted, IsReplyIn};

use crate::changes::Changes;
use crate::ledger::Ledger;
use crate::totals::Totals;
use crate::{changes, ids, sales, totals};
use adx_units::{Offer, OutOfMemory, Sequence, Units};
use allocator_core::AWARDED;
use campaign_book::Book;
use day_rules::{Answer, Ask, DayLimits, Entry, MAX_CHANGES, Seen, Which};
use indexmap::IndexMap;
use notice_book::{Awards, NoticeKind, Ruling};
use std::alloc::Global;
use std::marker::Model;
use std::snapshot::Snapshot;

/// One serving day: what it was opened with, and its history. A contract sees both, and what there is
/// memory for.
#[derive(Drop)]
pub struct Day {
    alloc: Global,
    pub(crate) limits: DayLimits,
    /// The ledger as the day was opened.
    opened: Snapshot<Ledger>,
    history: Vec<Entry>,
    ledger: Ledger,
    ids: IndexMap<String, u32>,
    /// The changes of each campaign's budget, by its place in the roster.
    changes: Vec<Changes>,
    pub(crate) totals: Totals,
}

impl Model for Day {
    ghost use Rattle.std.specs.Prelude.{vec_len, vec_capacity, ◌-◌, map};
    ghost use Rattle.day_rules.specs.DayState.{DayState, next_id};
    ghost use Rattle.day_rules.specs.Terms.{terms_of};
    ghost use Rattle.day_machine.specs.DayFields.{AreFields, id_entries};

    ghost Value = { DayState };

    ghost view = { λ d. record {
      terms = terms_of d.opened.value.budgets d.limits;
      history = d.history.items;
      room = record {
        entries = vec_capacity d.history - vec_len d.history;
        awards = d.ledger.room;
        prepared = next_id d.totals.asks (vec_len d.history) (id_entries d.ids);
        changes = map (λ c. c.room) d.changes.items;
      };
    } };

    ghost invariant = { λ d. AreFields (terms_of d.opened.value.budgets d.limits) d.history.items (vec_capacity d.history - vec_len d.history) d.ledger (id_entries d.ids) d.changes.items d.totals };
}

/// The refusal of an ask that would pass a limit.
fn full(which: Which, count: u64) -> (Answer, Option<Entry>)
    ensures answer { result.0 ≡ Answer.DayFull which count }
    ensures entry { result.1 ≡ None }
{
    (Answer::DayFull { which, count }, None)
}

/// Whether one of the offers was awarded.
fn is_awarded(offers: &[Offer]) -> bool
    ensures { result ≡ list_any (λ o. o.reason == AWARDED_MARK) offers.now }
{
    offers.iter().any(|offer| offer.reason == AWARDED)
}

/// The answer to a settled ask, which goes to the end of the history.
fn sale(history: &[Entry], ask: Ask) -> (Answer, Option<Entry>)
    ensures answer { result.0 ≡ (sale_reply history.now ask).answer }
    ensures entry { result.1 ≡ (sale_reply history.now ask).entry }
{
    let entry = history.len() as u64;
    let answer = if is_awarded(ask.offers.as_slice()) {
        Answer::Awarded { entry }
    } else {
        Answer::NoSale { entry }
    };
    (answer, Some(Entry::Ask(ask)))
}

/// The entry that counts a notice.
pub(crate) fn entry_of(kind: NoticeKind, award: u32) -> Entry
    ensures { result ≡ entry_of_notice kind award }
{
    match kind {
        NoticeKind::Win => Entry::Win { award },
        NoticeKind::Bill => Entry::Bill { award },
        NoticeKind::Loss => Entry::Loss { award },
    }
}

/// Whether the answer to a notice is that it counts, which is where its reply adds an entry.
pub(crate) fn is_counted(answer: &Answer) -> bool
    ensures { result ≡ is_counted answer.now }
{
    matches!(answer, Answer::Counted)
}

/// The entry of a notice that counts, and else none.
fn entry_if(counted: bool, kind: NoticeKind, award: u32) -> Option<Entry>
    ensures { result ≡ entry_if counted kind award }
{
    if counted {
        Some(entry_of(kind, award))
    } else {
        None
    }
}

/// The answer to a change whose number the campaign has already, at that place and with that budget.
fn again(place: u32, kept: Units, budget: Units) -> Answer
    ensures { result ≡ (if kept.0 == budget.0 then Answer.Repeat place else Answer.BudgetReused kept) }
{
    if kept.0 == budget.0 {
        Answer::Repeat {
            entry: u64::from(place),
        }
    } else {
        Answer::BudgetReused { kept }
    }
}

impl Day {
    /// A day without entries.
    pub fn new(alloc: Global, budgets: &[Units], limits: DayLimits) -> Result<Day, OutOfMemory>
        requires { AreTerms (terms_of budgets.now limits) }
        ensures terms { IfOk result (λ d. d.terms ≡ terms_of budgets.now limits) }
        ensures history { IfOk result (λ d. d.history ≡ []) }
    {
        let ledger = Ledger::new(alloc, budgets)?;
        let changes = changes::rows_of(alloc, budgets.len())?;
        Ok(Day {
            alloc,
            limits,
            opened: Snapshot::of(&ledger),
            history: Vec::new(alloc),
            ledger,
            ids: IndexMap::new(alloc),
            changes,
            totals: Totals {
                asks: 0,
                bids: 0,
                text: 0,
                changes: 0,
                moment: 0,
            },
        })
    }

    /// What happened so far: a legal history, whatever was called.
    pub fn entries(&self) -> &[Entry]
        ensures history { result.now ≡ self.now.history }
        ensures legal { IsDay self.now.terms self.now.history }
    {
        self.history.as_slice()
    }

    /// The money of each campaign.
    pub fn book(&self) -> &Book
        ensures { result.now ≡ accounts_in (budgets_after self.now.terms self.now.history) (awards_of self.now.history) }
    {
        self.ledger.money()
    }

    /// The awards, with what became of each.
    pub fn awards(&self) -> &Awards
        ensures { result.now.awards ≡ awards_of self.now.history }
    {
        self.ledger.sold()
    }

    /// How many entries notices and moments may still add: one that ends each open award, and one win of each award
    /// that may still be won.
    pub fn to_come(&self) -> u64
        ensures { result ≡ entries_to_come (awards_of self.now.history) }
    {
        self.ledger.to_come()
    }

    /// Whether a request is in the history, by its auction and its digest, or its auction with
    /// another request.
    pub fn seen(&self, auction: &str, digest: &[u8; 32]) -> Seen
        ensures { result ≡ seen_in self.now.history auction.now digest.now }
    {
        match ids::place_of(&self.ids, self.totals.asks, auction) {
            None => Seen::New,
            Some(place) => ids::seen_at(&self.history, place, digest),
        }
    }

    /// The answer to an ask, and the entry that a commit is to add, if the reply adds one. The day
    /// itself stays as it is.
    pub fn plan_ask(&self, ask: Ask) -> (Answer, Option<Entry>)
        requires formed { IsWellFormed (length self.now.terms.budgets) ask }
        requires undecided { IsUndecided ask }
        ensures answer { result.0 ≡ (ask_reply self.now.terms self.now.history ask).answer }
        ensures entry { result.1 ≡ (ask_reply self.now.terms self.now.history ask).entry }
        ensures legal { IfSome result.1 (MayFollow self.now.terms self.now.history) }
    {
        match self.seen(ask.auction.as_str(), &ask.digest) {
            Seen::New => self.plan_new(ask),
            Seen::Same { entry } => (Answer::Repeat { entry }, None),
            Seen::Other { kept } => {
                let answer = Answer::Reused {
                    kept_digest: kept,
                    given: ask.digest,
                };
                (answer, None)
            }
        }
    }

    /// The answer to an ask of an auction that isn't in the history.
    fn plan_new(&self, ask: Ask) -> (Answer, Option<Entry>)
        requires formed { IsWellFormed (length self.now.terms.budgets) ask }
        requires undecided { IsUndecided ask }
        requires new { ask_of ask.auction self.now.history ≡ None }
        ensures { IsReplyIn self.now.terms self.now.history result
            (settled_reply self.now.terms.limits self.now.history (settled self.now.terms self.now.history ask)) }
    {
        let asks = self.totals.asks + 1;
        if self.limits.auctions < asks {
            return full(Which::Auctions, asks);
        }
        let bids = self.totals.bids + ask.offers.len() as u64;
        if self.limits.bids < bids {
            return full(Which::Bids, bids);
        }
        let ask = self.settled(ask);
        let text = self.totals.text + day_rules::size_of_all(ask.kept.as_slice());
        if self.limits.text < text {
            return full(Which::Text, text);
        }
        sale(&self.history, ask)
    }

    /// The ask as the day settles it after its history, without memory.
    fn settled(&self, ask: Ask) -> Ask
        requires formed { IsWellFormed (length self.now.terms.budgets) ask }
        requires undecided { IsUndecided ask }
        ensures { result ≡ settled self.now.terms self.now.history ask }
    {
        let Ask {
            auction,
            digest,
            now,
            first: _,
            imps,
            offers,
            kept,
        } = ask;
        let mut offers = offers.into_vec();
        self.ledger.settle(&mut offers, imps.len() as u32);
        let kept = day_rules::settle_kept(self.alloc, &offers, kept.into_vec());
        Ask {
            auction,
            digest,
            now: now.max(self.totals.moment),
            first: self.ledger.sold().len(),
            imps,
            offers: Sequence::from(offers),
            kept: Sequence::from(kept),
        }
    }

    /// The answer to a notice of an award. The day itself stays as it is.
    pub(crate) fn answer_notice(&self, kind: NoticeKind, auction: &str, award: u32) -> Answer
        ensures { result ≡ (notice_reply self.now.history kind auction.now award).answer }
    {
        match self.ledger.sold().get(award) {
            None => Answer::Unknown,
            Some(sold) => {
                if ids::is_of_auction(&self.history, sold.ask, auction) {
                    self.answer_ruled(kind, award)
                } else {
                    Answer::Unknown
                }
            }
        }
    }

    /// The answer to a notice of an award of the auction that it names.
    fn answer_ruled(&self, kind: NoticeKind, n: u32) -> Answer
        requires { n < length (awards_of self.now.history) }
        ensures { (w : AwardValue) → slice_get (awards_of self.now.history) n ≡ Some w
            → result ≡ (ruled_reply self.now.history kind n (ruling_of kind w)).answer }
    {
        match self.ledger.sold().rule(kind, n) {
            Ruling::Counted => Answer::Counted,
            Ruling::Repeat => Answer::Repeat {
                entry: u64::from(self.ledger.place(kind, n)),
            },
            Ruling::Conflict(kept) => Answer::Conflict { kept },
        }
    }

    /// The answer to a notice of an award, and the entry that a commit is to add, if the reply adds
    /// one. The room for that entry is there already: it needs no prepare. The day itself stays as it
    /// is.
    pub fn plan_notice(
        &self,
        kind: NoticeKind,
        auction: &str,
        award: u32,
    ) -> (Answer, Option<Entry>)
        ensures answer { result.0 ≡ (notice_reply self.now.history kind auction.now award).answer }
        ensures entry { result.1 ≡ (notice_reply self.now.history kind auction.now award).entry }
        ensures legal { IfSome result.1 (MayFollow self.now.terms self.now.history) }
        ensures room { IfSome result.1 (HasRoomFor self.now) }
    {
        let answer = self.answer_notice(kind, auction, award);
        let entry = entry_if(is_counted(&answer), kind, award);
        (answer, entry)
    }

    /// The answer to a tick, and the entry that a commit is to add, if an award ends. The room for that
    /// entry is there already. The day itself stays as it is.
    pub fn plan_tick(&self, now: u64) -> (Answer, Option<Entry>)
        requires { now < 2 ^ 63 }
        ensures answer { result.0 ≡ (tick_reply self.now.history now).answer }
        ensures entry { result.1 ≡ (tick_reply self.now.history now).entry }
        ensures legal { IfSome result.1 (MayFollow self.now.terms self.now.history) }
        ensures room { IfSome result.1 (HasRoomFor self.now) }
    {
        let moment = now.max(self.totals.moment);
        let ended = self.ledger.sold().due(moment);
        if ended == 0 {
            return (Answer::Ticked { ended: 0 }, None);
        }
        (
            Answer::Ticked { ended },
            Some(Entry::Expire { now: moment }),
        )
    }

    /// The answer to a change of a campaign's budget, in units, and the entry that a commit is to add, if
    /// the reply adds one. The day itself stays as it is.
    pub fn plan_budget(&self, campaign: u32, change: u32, budget: Units) -> (Answer, Option<Entry>)
        requires change { 1 ≤ change }
        requires budget { IsBudget budget }
        ensures answer { result.0 ≡ (budget_reply self.now.terms self.now.history (change_of campaign change budget)).answer }
        ensures entry { result.1 ≡ (budget_reply self.now.terms self.now.history (change_of campaign change budget)).entry }
        ensures legal { IfSome result.1 (MayFollow self.now.terms self.now.history) }
    {
        if campaign >= self.book().count() {
            return (Answer::NoCampaign, None);
        }
        match self.kept_change(campaign, change) {
            None => self.plan_new_change(campaign, change, budget),
            Some((place, kept)) => (again(place, kept, budget), None),
        }
    }

    /// The change of that campaign and number, if it is in the history: its place and its budget.
    fn kept_change(&self, campaign: u32, change: u32) -> Option<(u32, Units)>
        requires { campaign < length self.now.terms.budgets }
        ensures { (budget : Units) → result ≡ option_map (λ p. (p.0, p.1.budget))
            (same_change (change_of campaign change budget) self.now.history) }
    {
        match self.changes[campaign as usize].place_of(change) {
            None => None,
            Some(place) => changes::set_at(&self.history, place),
        }
    }

    /// The greatest number of a campaign's changes, and 0 where there is none.
    pub(crate) fn last_change(&self, campaign: u32) -> u32
        requires { campaign < length self.now.terms.budgets }
        ensures { result ≡ last_change campaign self.now.history }
    {
        self.changes[campaign as usize].last()
    }

    /// The answer to a change whose number the campaign doesn't have.
    fn plan_new_change(&self, campaign: u32, change: u32, budget: Units) -> (Answer, Option<Entry>)
        requires known { campaign < length self.now.terms.budgets }
        requires change { 1 ≤ change }
        requires budget { IsBudget budget }
        requires new { same_change (change_of campaign change budget) self.now.history ≡ None }
        ensures { IsReplyIn self.now.terms self.now.history result (new_change_reply self.now.history (change_of campaign change budget)) }
    {
        let count = self.totals.changes + 1;
        let last = self.last_change(campaign);
        if change < last {
            return (Answer::Late { last }, None);
        }
        let committed = self.book().committed(campaign);
        if budget.0 < committed.0 {
            return (Answer::BelowCommitted { committed }, None);
        }
        if MAX_CHANGES < count {
            return full(Which::Changes, count);
        }
        let entry = Entry::Budget {
            campaign,
            change,
            budget,
        };
        (Answer::Budgeted, Some(entry))
    }

    /// Makes the memory for an entry: for an ask, for two further entries per award of it, beside
    /// those that earlier awards may still get. What was prepared for an ask before is given up with
    /// another ask, also if memory is refused.
    pub fn prepare(&mut self, entry: &Entry) -> Result<(), OutOfMemory>
        requires { MayFollow self.old.terms self.old.history entry.now }
        ensures room { OnOk result (HasRoomFor self.new entry.now) }
        ensures terms { self.new.terms ≡ self.old.terms }
        ensures history { self.new.history ≡ self.old.history }
        ensures kept { self.old.room.entries ≤ self.new.room.entries }
    {
        match entry {
            Entry::Ask(ask) => self.prepare_ask(ask),
            Entry::Budget { campaign, .. } => self.prepare_change(*campaign),
            Entry::Win { .. } | Entry::Bill { .. } | Entry::Loss { .. } | Entry::Expire { .. } => {
                // The room is there already, as a field shows.
                let _ = &self.history;
                Ok(())
            }
        }
    }

    /// Makes the memory for an ask.
    fn prepare_ask(&mut self, ask: &Ask) -> Result<(), OutOfMemory>
        requires { AskMayFollow self.old.terms self.old.history ask.now }
        ensures room { OnOk result (HasRoomForAsk self.old.history self.new.room ask.entry.now) }
        ensures terms { self.new.terms ≡ self.old.terms }
        ensures history { self.new.history ≡ self.old.history }
        ensures kept { self.old.room.entries ≤ self.new.room.entries }
    {
        let count = sales::sale_count(ask);
        let asks = self.totals.asks as usize;
        let place = self.history.len() as u32;
        ids::put_next(self.alloc, &mut self.ids, asks, ask.auction.as_str(), place)?;
        self.history
            .reserve(1 + 2 * count + self.ledger.to_come() as usize)?;
        self.ledger.room(count as u32)?;
        Ok(())
    }

    /// Makes the memory for a change of a campaign's budget.
    fn prepare_change(&mut self, campaign: u32) -> Result<(), OutOfMemory>
        requires { campaign < length self.old.terms.budgets }
        ensures room { OnOk result (HasRoomForChange self.old.history self.new.room campaign) }
        ensures terms { self.new.terms ≡ self.old.terms }
        ensures history { self.new.history ≡ self.old.history }
        ensures kept { self.old.room.entries ≤ self.new.room.entries }
    {
        self.history.reserve(1 + self.ledger.to_come() as usize)?;
        self.changes[campaign as usize].room()?;
        Ok(())
    }

    /// Adds an entry to the end of the history, without memory. An ask has to be the one that was
    /// prepared last, with nothing added since; a change of a budget has to be prepared too, and a
    /// notice or a moment never is.
    pub fn commit(&mut self, entry: Entry)
        requires legal { MayFollow self.old.terms self.old.history entry }
        requires room { HasRoomFor self.old entry }
        ensures terms { self.new.terms ≡ self.old.terms }
        ensures history { self.new.history ≡ self.old.history ++ entry ∷ [] }
    {
        match entry {
            Entry::Ask(ask) => self.commit_ask(ask),
            Entry::Win { award } => self.commit_notice(NoticeKind::Win, award),
            Entry::Bill { award } => self.commit_notice(NoticeKind::Bill, award),
            Entry::Loss { award } => self.commit_notice(NoticeKind::Loss, award),
            Entry::Expire { now } => self.commit_moment(now),
            Entry::Budget {
                campaign,
                change,
                budget,
            } => self.commit_change(campaign, change, budget),
        }
    }

    /// Adds an ask.
    fn commit_ask(&mut self, ask: Ask)
        requires legal { AskMayFollow self.old.terms self.old.history ask }
        requires room { HasRoomForAsk self.old.history self.old.room ask }
        ensures terms { self.new.terms ≡ self.old.terms }
        ensures history { self.new.history ≡ self.old.history ++ Entry.Ask ask ∷ [] }
    {
        let place = self.history.len() as u32;
        let text = day_rules::size_of_all(ask.kept.as_slice());
        sales::sell(&mut self.ledger, &ask, place);
        self.totals = totals::with_ask(self.totals, &ask, text);
        self.history.push_reserved(Entry::Ask(ask));
    }

    /// Adds a notice.
    fn commit_notice(&mut self, kind: NoticeKind, n: u32)
        requires { Counts kind n (awards_of self.old.history) }
        ensures terms { self.new.terms ≡ self.old.terms }
        ensures history { self.new.history ≡ self.old.history ++ entry_of_notice kind n ∷ [] }
    {
        let place = self.history.len() as u32;
        self.ledger.apply(kind, n, place);
        self.history.push_reserved(entry_of(kind, n));
    }

    /// Adds a moment.
    fn commit_moment(&mut self, now: u64)
        requires { ExpireMayFollow self.old.history now }
        ensures terms { self.new.terms ≡ self.old.terms }
        ensures history { self.new.history ≡ self.old.history ++ Entry.Expire now ∷ [] }
    {
        self.ledger.expire(now);
        self.totals = totals::with_moment(self.totals, now);
        self.history.push_reserved(Entry::Expire { now });
    }

    /// Adds a change of a campaign's budget.
    fn commit_change(&mut self, campaign: u32, change: u32, budget: Units)
        requires legal { BudgetMayFollow self.old.terms self.old.history (change_of campaign change budget) }
        requires room { HasRoomForChange self.old.history self.old.room campaign }
        ensures terms { self.new.terms ≡ self.old.terms }
        ensures history { self.new.history ≡ self.old.history ++ Entry.Budget campaign change budget ∷ [] }
    {
        let place = self.history.len() as u32;
        self.ledger.set_budget(campaign, budget);
        self.changes[campaign as usize].push(change, place);
        self.totals = totals::with_change(self.totals);
        self.history.push_reserved(Entry::Budget {
            campaign,
            change,
            budget,
        });
    }
}
