//! A day with the journal of its history; it owns no disk.
ghost use Rattle.std.specs.Prelude.{◌≡◌, ◌+◌, ◌*◌, ◌≤◌, ◌<◌, ◌^◌, ◌++◌, [], ◌∷◌, All, length, min, IfOk, IfErr, OnOk, OnErr, Some, None, Err};
ghost use Rattle.std.specs.Option.{ForSome};
ghost use Rattle.adx_io.specs.Streams.{last_count};
ghost use Rattle.day_journal.specs.Faults.{greatest_size};
ghost use Rattle.day_journal.specs.Tails.{size_of};
ghost use Rattle.day_entries.specs.Entries.{Fits, IsNoticeOrMoment, entry_bytes};
ghost use Rattle.day_rules.specs.Asks.{IsUndecided, IsWellFormed};
ghost use Rattle.campaign_book.specs.Accounts.{IsBudget};
ghost use Rattle.day_rules.specs.Entries.{asked, change_of};
ghost use Rattle.day_rules.specs.DayState.{HasRoomFor, IsDay};
ghost use Rattle.day_rules.specs.Legal.{MayFollow};
ghost use Rattle.day_rules.specs.DayMeters.{meters_after, steps_of};
ghost use Rattle.adx_desk.specs.Calls.{batch_bytes, DayEndsAsk, DayServes, DayServesAll, IsUnmoved, reply_to_ask, reply_to_change, reply_to_notice, reply_to_tick, terms_of};
ghost use Rattle.adx_desk.specs.Asked.{ask_for};
ghost use Rattle.day_machine.specs.Batches.{answers_in_turn, entries_in_turn};
ghost use Rattle.adx_desk.specs.Endings.{EndsNotice, size_with};
ghost use Rattle.day_machine.specs.Held.{held};
ghost use Rattle.adx_desk.specs.Histories.{longest_size};
ghost use Rattle.adx_desk.specs.Journaled.{EndsRecord, beside, day_in};
ghost use Rattle.adx_desk.specs.declared.fault.DeskFault.{DeskFault as Fault};
ghost use Rattle.day_machine.specs.declared.batch.TheConstants.{BATCH_LIMIT};
ghost use Rattle.day_machine.specs.declared.held.TheConstants.{NOTICE_ROOM};

use crate::copying::{copy_for, copy_in, fitted, swapped};
use crate::done::Done;
use crate::fault::DeskFault;
use crate::framing::{put_notice, put_planned};
use adx_io::Frame;
use adx_units::{OutOfMemory, Units};
use day_journal::{AppendFault, Disk, Journal};
use day_machine::{
    Batch, Day, GREATEST_SIZE, MeteredDay, expiry_record, held_by, notice_record, open_awards,
    open_behind, sale_count,
};
use day_rules::{Answer, Ask, Entry, MeterStep, Meters};
use notice_book::NoticeKind;
use std::alloc::Global;
use std::marker::Model;

/// A day, the journal of its history, and the digest of the roster that it was opened with. A contract sees its
/// terms, its history, the open journal, how many calls answered a fault of the disk, and what there is memory for.
#[derive(Drop)]
pub(crate) struct JournaledDay {
    day: MeteredDay,
    digest: [u8; 32],
    journal: Journal,
    without_end: u64,
    faults: u64,
}

impl Model for JournaledDay {
    ghost use Rattle.adx_desk.specs.Journaled.{AreJournaled, JournaledState};

    ghost Value = { JournaledState };

    ghost view = { λ d. record {
      desk = record {
        terms = record { day = d.day.terms; digest = d.digest };
        history = d.day.history;
        journal = d.journal;
        faults = d.faults;
      };
      room = d.day.room;
    } };

    ghost invariant = { λ d. AreJournaled d.day d.digest d.journal d.without_end };
}

impl JournaledDay {
    /// A day whose history its journal keeps; full where the journal has no room for what is held.
    pub(crate) fn of(
        day: MeteredDay,
        digest: [u8; 32],
        journal: Journal,
    ) -> Result<JournaledDay, DeskFault>
        requires legal { IsDay day.terms day.history }
        requires short { size_of journal ≤ longest_size (record { day = day.terms; digest = digest }) day.history }
        ensures desk { IfOk result (λ d. d.desk ≡ record { terms = terms_of day.terms digest; history = day.history; journal = journal; faults = 0 }) }
        ensures room { OnOk result (size_of journal + held journal.format day.history ≤ greatest_size) }
        ensures full { IfErr result (λ e. (greatest_size < size_of journal + held journal.format day.history)
            × (e ≡ Fault.JournalFull (min (size_of journal + held journal.format day.history) last_count))) }
    {
        let without_end = open_awards(day.day().awards());
        let held = held_by(journal.format(), day.day(), without_end);
        let size = journal.size().saturating_add(held);
        if size > GREATEST_SIZE {
            return Err(DeskFault::JournalFull { size });
        }
        Ok(JournaledDay {
            day,
            digest,
            journal,
            without_end,
            faults: 0,
        })
    }

    /// The day.
    pub(crate) fn day(&self) -> &Day
        ensures terms { result.now.terms ≡ self.now.desk.terms.day }
        ensures history { result.now.history ≡ self.now.desk.history }
        ensures size { size_of self.now.desk.journal ≤ longest_size self.now.desk.terms self.now.desk.history }
    {
        self.day.day()
    }

    /// The meters of the history.
    pub(crate) fn meters(&self) -> Meters
        ensures { result ≡ meters_after self.now.desk.history }
    {
        self.day.meters()
    }

    /// The step of each entry of the history.
    pub(crate) fn steps(&self) -> &[MeterStep]
        ensures { result.now ≡ steps_of self.now.desk.history }
    {
        self.day.steps()
    }

    /// How many calls answered a fault of the disk.
    pub(crate) fn faults(&self) -> u64
        ensures { result ≡ self.now.desk.faults }
    {
        self.faults
    }

    /// Makes the memory for an entry.
    pub(crate) fn prepare(&mut self, entry: &Entry) -> Result<(), OutOfMemory>
        requires { MayFollow self.old.desk.terms.day self.old.desk.history entry.now }
        ensures desk { self.new.desk ≡ self.old.desk }
        ensures room { OnOk result (HasRoomFor (day_in self.new) entry.now) }
    {
        self.day.prepare(entry)?;
        Ok(())
    }

    /// The bytes that are held beside the record of an entry. The record of a notice or of a moment takes of those that
    /// are held.
    fn held_beside(&self, entry: &Entry) -> u64
        requires { MayFollow self.now.desk.terms.day self.now.desk.history entry.now }
        ensures { result ≡ beside self.now.desk.journal.format self.now.desk.history entry.entry.now }
    {
        // What is held is small, as a field shows.
        let _ = &self.day;
        let format = self.journal.format();
        match entry {
            Entry::Ask(ask) => held_by(format, self.day.day(), self.without_end)
                + (expiry_record(format) + notice_record(format)) * sale_count(ask) as u64,
            Entry::Budget { .. } => held_by(format, self.day.day(), self.without_end),
            Entry::Win { .. } | Entry::Bill { .. } | Entry::Loss { .. } | Entry::Expire { .. } => 0,
        }
    }

    /// Writes a planned entry, which the frame holds, into the journal, and adds it to the history.
    fn append<D: Disk>(
        &mut self,
        disk: &mut D,
        frame: &Frame,
        entry: Entry,
    ) -> Result<(), DeskFault>
        requires follows { MayFollow self.old.desk.terms.day self.old.desk.history entry }
        requires room { HasRoomFor (day_in self.old) entry }
        requires payload { frame.now.payload ≡ entry_bytes self.old.desk.journal.format entry }
        requires fits { Fits self.old.desk.journal.format entry }
        ensures serves { DayServes D.Disk self.old self.new disk.old disk.new (Some entry) result }
        ensures ends { EndsRecord (D.faults disk.old) (D.faults disk.new) self.old.desk self.new.desk entry result }
        ensures always { IsNoticeOrMoment entry → size_with self.old.desk entry ≤ greatest_size }
        ensures refused { IfErr result (λ e. (e ≡ Fault.DiskFault → ⊥) → IsUnmoved self.old self.new disk.old disk.new) }
        ensures lasts { D.lasts disk.old disk.new }
    {
        let held = self.held_beside(&entry);
        let without_end = open_behind(self.day.day(), self.without_end, &entry);
        match self.journal.append(disk, frame, held) {
            Ok(()) => {
                self.day.commit(entry);
                self.without_end = without_end;
                Ok(())
            }
            Err(AppendFault::DiskFault) => {
                self.faults = self.faults.saturating_add(1);
                Err(DeskFault::DiskFault)
            }
            Err(AppendFault::Full { size }) => Err(DeskFault::JournalFull { size }),
        }
    }

    /// Gives the answer to a notice or a tick, and adds its entry, if it has one, without memory.
    fn add_notice<D: Disk>(
        &mut self,
        disk: &mut D,
        frame: &mut Frame,
        answer: Answer,
        entry: Option<Entry>,
    ) -> Result<Answer, DeskFault>
        requires follows { ForSome entry (MayFollow self.old.desk.terms.day self.old.desk.history) }
        requires room { ForSome entry (HasRoomFor (day_in self.old)) }
        requires no_ask { ForSome entry IsNoticeOrMoment }
        requires frame { NOTICE_ROOM ≤ frame.old.spare + length frame.old.payload }
        ensures answer { IfOk result (λ a. a ≡ answer) }
        ensures serves { DayServes D.Disk self.old self.new disk.old disk.new entry result }
        ensures ends { EndsNotice (D.faults disk.old) (D.faults disk.new) self.old.desk self.new.desk result }
        ensures unmoved { entry ≡ None → IsUnmoved self.old self.new disk.old disk.new }
        ensures frame { NOTICE_ROOM ≤ frame.new.spare + length frame.new.payload }
        ensures lasts { D.lasts disk.old disk.new }
    {
        match entry {
            None => Ok(answer),
            Some(entry) => {
                put_notice(frame, self.journal.format(), &entry);
                match self.append(disk, frame, entry) {
                    Ok(()) => Ok(answer),
                    Err(fault) => Err(fault),
                }
            }
        }
    }

    /// Answers a notice of an award of an auction.
    pub(crate) fn notice<D: Disk>(
        &mut self,
        disk: &mut D,
        frame: &mut Frame,
        kind: NoticeKind,
        auction: &str,
        award: u32,
    ) -> Result<Answer, DeskFault>
        requires { NOTICE_ROOM ≤ frame.old.spare + length frame.old.payload }
        ensures answer { IfOk result (λ a. a ≡ (reply_to_notice self.old.desk kind auction.now award).answer) }
        ensures serves { DayServes D.Disk self.old self.new disk.old disk.new (reply_to_notice self.old.desk kind auction.now award).entry result }
        ensures ends { EndsNotice (D.faults disk.old) (D.faults disk.new) self.old.desk self.new.desk result }
        ensures unmoved { (reply_to_notice self.old.desk kind auction.now award).entry ≡ None → IsUnmoved self.old self.new disk.old disk.new }
        ensures frame { NOTICE_ROOM ≤ frame.new.spare + length frame.new.payload }
        ensures lasts { D.lasts disk.old disk.new }
    {
        let (answer, entry) = self.day.plan_notice(kind, auction, award);
        self.add_notice(disk, frame, answer, entry)
    }

    /// Answers a tick at a moment in seconds.
    pub(crate) fn tick<D: Disk>(
        &mut self,
        disk: &mut D,
        frame: &mut Frame,
        now: u64,
    ) -> Result<Answer, DeskFault>
        requires moment { now < 2 ^ 63 }
        requires frame { NOTICE_ROOM ≤ frame.old.spare + length frame.old.payload }
        ensures answer { IfOk result (λ a. a ≡ (reply_to_tick self.old.desk now).answer) }
        ensures serves { DayServes D.Disk self.old self.new disk.old disk.new (reply_to_tick self.old.desk now).entry result }
        ensures ends { EndsNotice (D.faults disk.old) (D.faults disk.new) self.old.desk self.new.desk result }
        ensures unmoved { (reply_to_tick self.old.desk now).entry ≡ None → IsUnmoved self.old self.new disk.old disk.new }
        ensures frame { NOTICE_ROOM ≤ frame.new.spare + length frame.new.payload }
        ensures lasts { D.lasts disk.old disk.new }
    {
        let (answer, entry) = self.day.plan_tick(now);
        self.add_notice(disk, frame, answer, entry)
    }

    /// Takes all memory that a planned ask needs: for its bytes, for its entry and those that may come of it, and for a
    /// copy of it.
    fn make_room(
        &mut self,
        alloc: Global,
        frame: &mut Frame,
        entry: &Entry,
    ) -> Result<Option<Ask>, OutOfMemory>
        requires { MayFollow self.old.desk.terms.day self.old.desk.history entry.now }
        ensures copy { IfOk result (λ copy. copy ≡ asked entry.entry.now) }
        ensures payload { OnOk result (frame.new.payload ≡ entry_bytes self.old.desk.journal.format entry.now) }
        ensures fits { OnOk result (Fits self.old.desk.journal.format entry.now) }
        ensures room { OnOk result (HasRoomFor (day_in self.new) entry.now) }
        ensures desk { self.new.desk ≡ self.old.desk }
    {
        let copy = copy_in(alloc, entry)?;
        self.take_room(frame, entry)?;
        Ok(copy)
    }

    /// Takes the memory that a planned entry needs: for its bytes, for the entry and those that may come of it.
    fn take_room(&mut self, frame: &mut Frame, entry: &Entry) -> Result<(), OutOfMemory>
        requires { MayFollow self.old.desk.terms.day self.old.desk.history entry.now }
        ensures payload { OnOk result (frame.new.payload ≡ entry_bytes self.old.desk.journal.format entry.now) }
        ensures fits { OnOk result (Fits self.old.desk.journal.format entry.now) }
        ensures room { OnOk result (HasRoomFor (day_in self.new) entry.now) }
        ensures desk { self.new.desk ≡ self.old.desk }
    {
        put_planned(frame, self.journal.format(), entry)?;
        self.prepare(entry)?;
        Ok(())
    }

    /// Adds an ask for which all memory was taken, and gives what is then answered.
    fn append_as<D: Disk>(
        &mut self,
        disk: &mut D,
        frame: &Frame,
        done: Done,
        entry: Entry,
    ) -> Result<Done, DeskFault>
        requires follows { MayFollow self.old.desk.terms.day self.old.desk.history entry }
        requires room { HasRoomFor (day_in self.old) entry }
        requires payload { frame.now.payload ≡ entry_bytes self.old.desk.journal.format entry }
        requires fits { Fits self.old.desk.journal.format entry }
        ensures answer { IfOk result (λ d. d.answer ≡ done.answer) }
        ensures copy { IfOk result (λ d. d.ask ≡ done.ask) }
        ensures serves { DayServes D.Disk self.old self.new disk.old disk.new (Some entry) result }
        ensures ends { DayEndsAsk D.Disk self.old self.new disk.old disk.new (Some entry) result }
        ensures refused { IfErr result (λ e. (e ≡ Fault.DiskFault → ⊥) → IsUnmoved self.old self.new disk.old disk.new) }
        ensures lasts { D.lasts disk.old disk.new }
    {
        match self.append(disk, frame, entry) {
            Ok(()) => Ok(done),
            Err(fault) => Err(fault),
        }
    }

    /// Adds the planned ask of a reply: all memory first, then the journal, then the history, which keeps the exact
    /// copy; the ask as it was planned, whose lists have the room that they were read with, goes to the caller.
    fn add_ask<D: Disk>(
        &mut self,
        alloc: Global,
        disk: &mut D,
        frame: &mut Frame,
        answer: Answer,
        entry: Entry,
    ) -> Result<Done, DeskFault>
        requires { MayFollow self.old.desk.terms.day self.old.desk.history entry }
        ensures answer { IfOk result (λ d. d.answer ≡ answer) }
        ensures copy { IfOk result (λ d. d.ask ≡ asked entry) }
        ensures serves { DayServes D.Disk self.old self.new disk.old disk.new (Some entry) result }
        ensures ends { DayEndsAsk D.Disk self.old self.new disk.old disk.new (Some entry) result }
        ensures refused { IfErr result (λ e. (e ≡ Fault.DiskFault → ⊥) → IsUnmoved self.old self.new disk.old disk.new) }
        ensures lasts { D.lasts disk.old disk.new }
    {
        match self.make_room(alloc, frame, &entry) {
            Ok(copy) => {
                let (exact, ask) = swapped(entry, copy);
                self.append_as(disk, frame, Done { answer, ask }, exact)
            }
            Err(_) => Err(DeskFault::OutOfMemory),
        }
    }

    /// Answers an ask.
    pub(crate) fn ask<D: Disk>(
        &mut self,
        alloc: Global,
        disk: &mut D,
        frame: &mut Frame,
        ask: Ask,
    ) -> Result<Done, DeskFault>
        requires formed { IsWellFormed (length self.old.desk.terms.day.budgets) ask }
        requires undecided { IsUndecided ask }
        ensures answer { IfOk result (λ d. d.answer ≡ (reply_to_ask self.old.desk ask).answer) }
        ensures copy { IfOk result (λ d. d.ask ≡ ask_for self.new.desk.history d.answer) }
        ensures serves { DayServes D.Disk self.old self.new disk.old disk.new (reply_to_ask self.old.desk ask).entry result }
        ensures ends { DayEndsAsk D.Disk self.old self.new disk.old disk.new (reply_to_ask self.old.desk ask).entry result }
        ensures unmoved { (reply_to_ask self.old.desk ask).entry ≡ None → IsUnmoved self.old self.new disk.old disk.new }
        ensures refused { IfErr result (λ e. (e ≡ Fault.DiskFault → ⊥) → IsUnmoved self.old self.new disk.old disk.new) }
        ensures size { size_of self.old.desk.journal ≤ longest_size self.old.desk.terms self.old.desk.history }
        ensures lasts { D.lasts disk.old disk.new }
    {
        let (answer, entry) = self.day.day().plan_ask(ask);
        match entry {
            None => match copy_for(alloc, self.day.day().entries(), answer) {
                Ok(ask) => Ok(Done { answer, ask }),
                Err(_) => Err(DeskFault::OutOfMemory),
            },
            Some(entry) => self.add_ask(alloc, disk, frame, answer, entry),
        }
    }

    /// Answers an ask that nobody wants back: the history keeps it, without a copy.
    pub(crate) fn take_ask<D: Disk>(
        &mut self,
        disk: &mut D,
        frame: &mut Frame,
        ask: Ask,
    ) -> Result<Answer, DeskFault>
        requires formed { IsWellFormed (length self.old.desk.terms.day.budgets) ask }
        requires undecided { IsUndecided ask }
        ensures answer { IfOk result (λ a. a ≡ (reply_to_ask self.old.desk ask).answer) }
        ensures serves { DayServes D.Disk self.old self.new disk.old disk.new (reply_to_ask self.old.desk ask).entry result }
        ensures ends { DayEndsAsk D.Disk self.old self.new disk.old disk.new (reply_to_ask self.old.desk ask).entry result }
        ensures unmoved { (reply_to_ask self.old.desk ask).entry ≡ None → IsUnmoved self.old self.new disk.old disk.new }
        ensures refused { IfErr result (λ e. (e ≡ Fault.DiskFault → ⊥) → IsUnmoved self.old self.new disk.old disk.new) }
        ensures size { size_of self.old.desk.journal ≤ longest_size self.old.desk.terms self.old.desk.history }
        ensures lasts { D.lasts disk.old disk.new }
    {
        let (answer, entry) = self.day.day().plan_ask(ask);
        match entry {
            None => Ok(answer),
            Some(entry) => {
                let exact = fitted(entry);
                self.add_planned(disk, frame, answer, exact)
            }
        }
    }

    /// Adds the planned entry of a reply: all memory first, then the journal, then the history.
    fn add_planned<D: Disk>(
        &mut self,
        disk: &mut D,
        frame: &mut Frame,
        answer: Answer,
        entry: Entry,
    ) -> Result<Answer, DeskFault>
        requires { MayFollow self.old.desk.terms.day self.old.desk.history entry }
        ensures answer { IfOk result (λ a. a ≡ answer) }
        ensures serves { DayServes D.Disk self.old self.new disk.old disk.new (Some entry) result }
        ensures ends { DayEndsAsk D.Disk self.old self.new disk.old disk.new (Some entry) result }
        ensures refused { IfErr result (λ e. (e ≡ Fault.DiskFault → ⊥) → IsUnmoved self.old self.new disk.old disk.new) }
        ensures lasts { D.lasts disk.old disk.new }
    {
        match self.take_room(frame, &entry) {
            Ok(()) => self.append_answer(disk, frame, answer, entry),
            Err(_) => Err(DeskFault::OutOfMemory),
        }
    }

    /// Adds an entry for which all memory was taken, and gives its answer.
    fn append_answer<D: Disk>(
        &mut self,
        disk: &mut D,
        frame: &Frame,
        answer: Answer,
        entry: Entry,
    ) -> Result<Answer, DeskFault>
        requires follows { MayFollow self.old.desk.terms.day self.old.desk.history entry }
        requires room { HasRoomFor (day_in self.old) entry }
        requires payload { frame.now.payload ≡ entry_bytes self.old.desk.journal.format entry }
        requires fits { Fits self.old.desk.journal.format entry }
        ensures answer { IfOk result (λ a. a ≡ answer) }
        ensures serves { DayServes D.Disk self.old self.new disk.old disk.new (Some entry) result }
        ensures ends { DayEndsAsk D.Disk self.old self.new disk.old disk.new (Some entry) result }
        ensures refused { IfErr result (λ e. (e ≡ Fault.DiskFault → ⊥) → IsUnmoved self.old self.new disk.old disk.new) }
        ensures lasts { D.lasts disk.old disk.new }
    {
        match self.append(disk, frame, entry) {
            Ok(()) => Ok(answer),
            Err(fault) => Err(fault),
        }
    }

    /// Answers a change of a campaign's budget.
    pub(crate) fn set_budget<D: Disk>(
        &mut self,
        disk: &mut D,
        frame: &mut Frame,
        campaign: u32,
        change: u32,
        budget: Units,
    ) -> Result<Answer, DeskFault>
        requires change { 1 ≤ change }
        requires budget { IsBudget budget }
        ensures answer { IfOk result (λ a. a ≡ (reply_to_change self.old.desk (change_of campaign change budget)).answer) }
        ensures serves { DayServes D.Disk self.old self.new disk.old disk.new (reply_to_change self.old.desk (change_of campaign change budget)).entry result }
        ensures ends { DayEndsAsk D.Disk self.old self.new disk.old disk.new (reply_to_change self.old.desk (change_of campaign change budget)).entry result }
        ensures unmoved { (reply_to_change self.old.desk (change_of campaign change budget)).entry ≡ None → IsUnmoved self.old self.new disk.old disk.new }
        ensures refused { IfErr result (λ e. (e ≡ Fault.DiskFault → ⊥) → IsUnmoved self.old self.new disk.old disk.new) }
        ensures size { size_of self.old.desk.journal ≤ longest_size self.old.desk.terms self.old.desk.history }
        ensures lasts { D.lasts disk.old disk.new }
    {
        let (answer, entry) = self.day.day().plan_budget(campaign, change, budget);
        match entry {
            None => Ok(answer),
            Some(entry) => self.add_planned(disk, frame, answer, entry),
        }
    }

    /// Writes the entries of a batch, whose bytes the frame holds, into the journal as one record, and adds them to the
    /// history, without memory.
    fn append_all<D: Disk>(
        &mut self,
        disk: &mut D,
        frame: &Frame,
        batch: &Batch,
    ) -> Result<(), DeskFault>
        requires payload { frame.now.payload ≡ batch_bytes self.old.desk batch.now.calls }
        requires fits { All (Fits self.old.desk.journal.format) (entries_in_turn self.old.desk.history batch.now.calls) }
        requires some { 0 < length (entries_in_turn self.old.desk.history batch.now.calls) }
        requires answers { batch.now.answers ≡ Some (answers_in_turn self.old.desk.history batch.now.calls) }
        ensures serves { DayServesAll D.Disk self.old self.new disk.old disk.new (entries_in_turn self.old.desk.history batch.now.calls) result }
        ensures ends { EndsNotice (D.faults disk.old) (D.faults disk.new) self.old.desk self.new.desk result }
        ensures grown { OnOk result (size_of self.new.desk.journal
            ≡ size_of self.old.desk.journal + (length (batch_bytes self.old.desk batch.now.calls) + 5)) }
        ensures lasts { D.lasts disk.old disk.new }
    {
        match self.journal.append(disk, frame, 0) {
            Ok(()) => {
                self.without_end = batch.commit(&mut self.day, self.without_end);
                Ok(())
            }
            Err(AppendFault::DiskFault) => {
                let faults = self.faults.saturating_add(1);
                self.faults = faults;
                Err(DeskFault::DiskFault)
            }
            Err(AppendFault::Full { .. }) => unreachable!(),
        }
    }

    /// Answers the calls of a batch, without memory, and adds their entries as one record.
    pub(crate) fn batch<D: Disk>(
        &mut self,
        disk: &mut D,
        frame: &mut Frame,
        batch: &mut Batch,
    ) -> Result<(), DeskFault>
        requires waits { batch.old.answers ≡ None }
        requires frame { NOTICE_ROOM ≤ frame.old.spare + length frame.old.payload }
        ensures answers { OnOk result (batch.new ≡ record batch.old { answers = Some (answers_in_turn self.old.desk.history batch.old.calls) }) }
        ensures waits { OnErr result (batch.new ≡ batch.old) }
        ensures serves { DayServesAll D.Disk self.old self.new disk.old disk.new (entries_in_turn self.old.desk.history batch.old.calls) result }
        ensures ends { EndsNotice (D.faults disk.old) (D.faults disk.new) self.old.desk self.new.desk result }
        ensures unmoved { entries_in_turn self.old.desk.history batch.old.calls ≡ [] → IsUnmoved self.old self.new disk.old disk.new }
        ensures few { length (entries_in_turn self.old.desk.history batch.old.calls) ≤ BATCH_LIMIT }
        ensures grown { OnOk result (0 < length (entries_in_turn self.old.desk.history batch.old.calls)
            → size_of self.new.desk.journal ≡ size_of self.old.desk.journal + (length (batch_bytes self.old.desk batch.old.calls) + 5)) }
        ensures frame { NOTICE_ROOM ≤ frame.new.spare + length frame.new.payload }
        ensures lasts { D.lasts disk.old disk.new }
    {
        batch.run(self.journal.format(), self.day.day(), frame);
        if frame.payload().is_empty() {
            return Ok(());
        }
        match self.append_all(disk, frame, batch) {
            Ok(()) => Ok(()),
            Err(fault) => {
                batch.wait();
                Err(fault)
            }
        }
    }

    /// How many bytes the journal has.
    pub(crate) fn journal_size(&self) -> u64
        ensures size { result ≡ size_of self.now.desk.journal }
        ensures bound { result ≤ greatest_size }
    {
        self.journal.size()
    }
}
