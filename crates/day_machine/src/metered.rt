//! A day that keeps its meters and steps as it goes.
ghost use Rattle.std.specs.Prelude.{◌≡◌, ◌++◌, ◌∷◌, ◌^◌, ◌<◌, ◌≤◌, [], drop, length, IfOk, IfSome, OnOk};
ghost use Rattle.campaign_book.specs.Accounts.{IsBudget};
ghost use Rattle.notice_book.specs.declared.kind.NoticeKind.{NoticeKind as Kind};
ghost use Rattle.day_rules.specs.Asks.{IsUndecided, IsWellFormed};
ghost use Rattle.day_rules.specs.Books.{awards_of, entries_to_come};
ghost use Rattle.day_rules.specs.DayState.{HasRoomFor, HasRoomForAsk, IsDay};
ghost use Rattle.day_rules.specs.Entries.{change_of};
ghost use Rattle.day_rules.specs.Legal.{AskMayFollow, ExpireMayFollow, MayFollow};
ghost use Rattle.day_rules.specs.Replies.{ask_reply, budget_reply, notice_reply, tick_reply};
ghost use Rattle.day_rules.specs.Terms.{AreTerms, terms_of};
ghost use Rattle.day_machine.specs.MeteredFields.{steps_needed};
ghost use Rattle.day_rules.specs.DayMeters.{meters_after, step_of, steps_of};

use crate::committed::{add, charge_of, charges_from};
use crate::day::Day;
use crate::reserving::reserved_of;
use crate::sales::sale_count;
use adx_units::{OutOfMemory, Units};
use day_rules::{Answer, Ask, DayLimits, Entry, MeterStep, Meters, StepKind};
use notice_book::NoticeKind;
use std::alloc::Global;
use std::marker::Model;

/// A day beside the meters of its history and the step of each entry. A contract sees the day, with room for no more
/// entries than there is memory for steps.
#[derive(Drop)]
pub struct MeteredDay {
    day: Day,
    meters: Meters,
    steps: Vec<MeterStep>,
}

impl Model for MeteredDay {
    ghost use Rattle.std.specs.Prelude.{vec_len, vec_capacity, ◌-◌};
    ghost use Rattle.day_rules.specs.DayState.{DayState};
    ghost use Rattle.day_machine.specs.MeteredFields.{AreMetered};
    ghost use Rattle.day_machine.specs.Metered.{metered};

    ghost Value = { DayState };

    ghost view = { λ d. metered d.day (vec_capacity d.steps - vec_len d.steps) };

    ghost invariant = { λ d. AreMetered d.day d.meters d.steps.items (vec_capacity d.steps - vec_len d.steps) };
}

impl MeteredDay {
    /// A day without entries.
    pub fn new(
        alloc: Global,
        budgets: &[Units],
        limits: DayLimits,
    ) -> Result<MeteredDay, OutOfMemory>
        requires { AreTerms (terms_of budgets.now limits) }
        ensures terms { IfOk result (λ d. d.terms ≡ terms_of budgets.now limits) }
        ensures history { IfOk result (λ d. d.history ≡ []) }
    {
        let day = Day::new(alloc, budgets, limits)?;
        // What was opened is a day.
        let _ = day.entries();
        Ok(MeteredDay {
            day,
            meters: Meters::new(),
            steps: Vec::new(alloc),
        })
    }

    /// The day itself, for all that only reads it.
    pub fn day(&self) -> &Day
        ensures terms { result.now.terms ≡ self.now.terms }
        ensures history { result.now.history ≡ self.now.history }
        ensures legal { IsDay self.now.terms self.now.history }
    {
        &self.day
    }

    /// The meters of the history.
    pub fn meters(&self) -> Meters
        ensures { result ≡ meters_after self.now.history }
    {
        self.meters
    }

    /// The step of each entry of the history.
    pub fn steps(&self) -> &[MeterStep]
        ensures { result.now ≡ steps_of self.now.history }
    {
        self.steps.as_slice()
    }

    /// The answer to a notice of an award, and the entry that a commit is to add, if the reply adds one. The room for
    /// that entry is there already.
    pub fn plan_notice(
        &self,
        kind: NoticeKind,
        auction: &str,
        award: u32,
    ) -> (Answer, Option<Entry>)
        ensures answer { result.0 ≡ (notice_reply self.now.history kind auction.now award).answer }
        ensures entry { result.1 ≡ (notice_reply self.now.history kind auction.now award).entry }
        ensures legal { IfSome result.1 (MayFollow self.now.terms self.now.history) }
        ensures room { IfSome result.1 (HasRoomFor self.now) }
    {
        self.day.plan_notice(kind, auction, award)
    }

    /// The answer to a tick, and the entry that a commit is to add, if an award ends. The room for that entry is there
    /// already.
    pub fn plan_tick(&self, now: u64) -> (Answer, Option<Entry>)
        requires { now < 2 ^ 63 }
        ensures answer { result.0 ≡ (tick_reply self.now.history now).answer }
        ensures entry { result.1 ≡ (tick_reply self.now.history now).entry }
        ensures legal { IfSome result.1 (MayFollow self.now.terms self.now.history) }
        ensures room { IfSome result.1 (HasRoomFor self.now) }
    {
        self.day.plan_tick(now)
    }

    /// Makes the memory for an entry and its step, beside what earlier awards may still get. What was prepared for an ask
    /// before is given up with another ask, also if memory is refused.
    pub fn prepare(&mut self, entry: &Entry) -> Result<(), OutOfMemory>
        requires { MayFollow self.old.terms self.old.history entry.now }
        ensures room { OnOk result (HasRoomFor self.new entry.now) }
        ensures terms { self.new.terms ≡ self.old.terms }
        ensures history { self.new.history ≡ self.old.history }
        ensures kept { self.old.room.entries ≤ self.new.room.entries }
    {
        let more = self.steps_for(entry);
        self.steps.reserve(more)?;
        self.day.prepare(entry)?;
        Ok(())
    }

    /// For how many steps there has to be memory before the entry is added.
    fn steps_for(&self, entry: &Entry) -> usize
        requires { MayFollow self.now.terms self.now.history entry.now }
        ensures { steps_needed self.now.history entry.entry.now ≤ result }
    {
        let to_come = self.day.to_come() as usize;
        match entry {
            Entry::Ask(ask) => 1 + 2 * sale_count(ask) + to_come,
            Entry::Win { .. }
            | Entry::Bill { .. }
            | Entry::Loss { .. }
            | Entry::Expire { .. }
            | Entry::Budget { .. } => 1 + to_come,
        }
    }

    /// Adds an entry to the end of the history, without memory. An ask has to be the one that was prepared last, with
    /// nothing added since; a change of a budget has to be prepared too.
    pub fn commit(&mut self, entry: Entry)
        requires legal { MayFollow self.old.terms self.old.history entry }
        requires room { HasRoomFor self.old entry }
        ensures terms { self.new.terms ≡ self.old.terms }
        ensures history { self.new.history ≡ self.old.history ++ entry ∷ [] }
    {
        match entry {
            Entry::Ask(ask) => self.commit_ask(ask),
            Entry::Win { award } => self.commit_step(Entry::Win { award }, step(StepKind::Win, 0)),
            Entry::Bill { award } => {
                let money = charge_of(self.day.awards(), award);
                self.commit_step(Entry::Bill { award }, step(StepKind::Bill, money));
            }
            Entry::Loss { award } => {
                let money = charge_of(self.day.awards(), award);
                self.commit_step(Entry::Loss { award }, step(StepKind::Loss, money));
            }
            Entry::Expire { now } => self.commit_moment(now),
            Entry::Budget {
                campaign,
                change,
                budget,
            } => {
                let entry = Entry::Budget {
                    campaign,
                    change,
                    budget,
                };
                let step = MeterStep {
                    kind: StepKind::Budget,
                    count: 0,
                    money: 0,
                };
                self.commit_step(entry, step);
            }
        }
    }

    /// Adds an entry whose step is known before.
    fn commit_step(&mut self, entry: Entry, step: MeterStep)
        requires legal { MayFollow self.old.terms self.old.history entry }
        requires room { HasRoomFor self.old entry }
        requires step { step ≡ step_of self.old.history entry }
        ensures terms { self.new.terms ≡ self.old.terms }
        ensures history { self.new.history ≡ self.old.history ++ entry ∷ [] }
    {
        self.day.commit(entry);
        add(&mut self.meters, &mut self.steps, step);
    }

    /// Adds an ask; its step is that of the awards that it made.
    fn commit_ask(&mut self, ask: Ask)
        requires legal { AskMayFollow self.old.terms self.old.history ask }
        requires room { HasRoomForAsk self.old.history self.old.room ask }
        ensures terms { self.new.terms ≡ self.old.terms }
        ensures history { self.new.history ≡ self.old.history ++ Entry.Ask ask ∷ [] }
    {
        let first = self.day.awards().len();
        self.day.commit(Entry::Ask(ask));
        let awards = self.day.awards();
        let step = MeterStep {
            kind: StepKind::Ask,
            count: u64::from(awards.len() - first),
            money: charges_from(awards, first),
        };
        add(&mut self.meters, &mut self.steps, step);
    }

    /// Adds a moment; its money is what is no longer reserved.
    fn commit_moment(&mut self, now: u64)
        requires { ExpireMayFollow self.old.history now }
        ensures terms { self.new.terms ≡ self.old.terms }
        ensures history { self.new.history ≡ self.old.history ++ Entry.Expire now ∷ [] }
    {
        let count = u64::from(self.day.awards().due(now));
        self.day.commit(Entry::Expire { now });
        let money = self.meters.reserved - reserved_of(self.day.book());
        let step = MeterStep {
            kind: StepKind::Expire,
            count,
            money,
        };
        add(&mut self.meters, &mut self.steps, step);
    }
}

/// The step of a notice.
fn step(kind: StepKind, money: u64) -> MeterStep
    ensures { result ≡ record { kind = kind; count = 1; money = money } }
{
    MeterStep {
        kind,
        count: 1,
        money,
    }
}
