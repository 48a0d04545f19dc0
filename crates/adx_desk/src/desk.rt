//! The desk: a serving day whose history a journal keeps on a disk.
ghost use Rattle.std.specs.Prelude.{◌≡◌, ◌+◌, ◌*◌, ◌≤◌, ◌<◌, ◌^◌, true, is_some, [], length, drop, option_map, IfOk, IfErr, OnOk, OnErr, Some, None};
ghost use Rattle.day_journal.specs.Faults.{greatest_size};
ghost use Rattle.day_journal.specs.Tails.{size_of};
ghost use Rattle.day_rules.specs.Asks.{IsUndecided, IsWellFormed};
ghost use Rattle.campaign_book.specs.Accounts.{IsBudget};
ghost use Rattle.day_rules.specs.DayMeters.{meters_after, steps_of};
ghost use Rattle.day_rules.specs.Books.{accounts_in, awards_of};
ghost use Rattle.day_rules.specs.Entries.{change_of};
ghost use Rattle.day_rules.specs.DayState.{IsDay};
ghost use Rattle.day_rules.specs.Replies.{seen_in};
ghost use Rattle.day_rules.specs.Terms.{budgets_after};
ghost use Rattle.adx_desk.specs.Calls.{batch_bytes, DeskEndsAsk, DeskEndsNotice, DeskGivesUp, DeskOpens, DeskServes, DeskServesAll, reply_to_ask, reply_to_change, reply_to_notice, reply_to_tick};
ghost use Rattle.adx_desk.specs.Asked.{ask_for};
ghost use Rattle.adx_desk.specs.Desks.{StandsOnDisk};
ghost use Rattle.day_machine.specs.Batches.{answers_in_turn, entries_in_turn};
ghost use Rattle.day_machine.specs.declared.batch.TheConstants.{BATCH_LIMIT};
ghost use Rattle.adx_desk.specs.Histories.{longest_size};
ghost use Rattle.adx_desk.specs.Endings.{IsWithinRise};
ghost use Rattle.adx_desk.specs.Openings.{HasDiskCause};
ghost use Rattle.adx_desk.specs.Rosters.{desk_terms};
ghost use Rattle.adx_desk.specs.declared.fault.DeskFault.{DeskFault as Fault};

use crate::copying::lent_for;
use crate::done::Done;
use crate::fault::DeskFault;
use crate::journaled_day::JournaledDay;
use crate::parts::{Parts, parts_of};
use adx_io::Frame;
use adx_units::Units;
use campaign_book::Book;
use day_journal::Disk;
use day_machine::Batch;
use day_rules::{Answer, Ask, Entry, MeterStep, Meters, Seen};
use deal_floor::Roster;
use notice_book::NoticeKind;
use std::alloc::Global;
use std::marker::Model;
use std::mem::forget;
use std::snapshot::Snapshot;

/// A serving day, the journal of its history, and the disk that it is kept on. A contract sees a `DeskState`, the disk,
/// and what is known from the opening: what the desk was opened with, what happened, the open journal, and how many calls
/// answered a fault of the disk.
#[derive(Drop)]
pub struct Desk<D: Disk> {
    alloc: Global,
    kept: JournaledDay,
    asks: Frame,
    notices: Frame,
    disk: D,
    began: Snapshot<D>,
    opened: Snapshot<D>,
}

impl<D: Disk> Model for Desk<D> {
    ghost use Rattle.adx_desk.specs.Desks.{OnDisk};
    ghost use Rattle.adx_desk.specs.Fields.{AreFields};
    ghost use Rattle.std.specs.Prelude.{is_some};

    ghost Value = { OnDisk D };

    ghost view = { λ d. record {
      desk = d.kept.desk;
      disk = d.disk;
      since = record { count = D.faults d.opened.value; tells = is_some (D.reads d.began.value) };
    } };

    ghost invariant = { λ d. AreFields d.notices
        (record { count = D.faults d.opened.value; tells = is_some (D.reads d.began.value) })
        d.kept.desk (D.faults d.disk) (D.may_leave d.disk) };
}

impl<D: Disk> Desk<D> {
    /// Opens the desk of a roster's day on a disk: by the history that its file represents, or with a journal that it
    /// begins where there is none. Where it gives up it gives the disk back, which after a refusal of the file reads as
    /// it did before. The refusals are `NotAJournal`, `OtherRoster`, `BadLength` and `BadEntry`, the first of them in the
    /// order of the file's bytes, and then `JournalFull`.
    pub fn open(alloc: Global, disk: D, roster: &Roster) -> Result<Desk<D>, (DeskFault, D)>
        ensures opens { IfOk result (λ d. DeskOpens D.Disk (desk_terms roster.entry.now) disk d.disk d.desk) }
        ensures gives_up { IfErr result (λ e. DeskGivesUp D.Disk (desk_terms roster.entry.now) disk e.1 e.0) }
        ensures legal { IfOk result (λ d. IsDay d.desk.terms.day d.desk.history) }
        ensures same_count { IfOk result (λ d. D.faults d.disk ≡ D.faults disk) }
        ensures since { IfOk result (λ d. d.since ≡ record { count = D.faults d.disk; tells = is_some (D.reads disk) }) }
        ensures cause { IfErr result (λ e. HasDiskCause (D.faults disk) (D.faults e.1) e.0) }
        ensures lasts { IfOk result (λ d. D.lasts disk d.disk) }
        ensures lasts_back { IfErr result (λ e. D.lasts disk e.1) }
    {
        let began = Snapshot::of(&disk);
        let mut disk = disk;
        match parts_of(alloc, &mut disk, roster) {
            Ok(
                Parts {
                    kept,
                    asks,
                    notices,
                },
            ) => {
                let opened = Snapshot::of(&disk);
                Ok(Desk {
                    alloc,
                    kept,
                    asks,
                    notices,
                    disk,
                    began,
                    opened,
                })
            }
            Err(fault) => Err((fault, disk)),
        }
    }

    /// Answers an ask. Where the reply has an entry, it is in the journal, and then in the history; all memory is taken
    /// before the disk is written. The ask is given up on a refusal. After a fault the history and the books are as
    /// before.
    pub fn ask(&mut self, ask: Ask) -> Result<Done, DeskFault>
        requires formed { IsWellFormed (length self.old.desk.terms.day.budgets) ask }
        requires undecided { IsUndecided ask }
        ensures answer { IfOk result (λ d. d.answer ≡ (reply_to_ask self.old.desk ask).answer) }
        ensures copy { IfOk result (λ d. d.ask ≡ ask_for self.new.desk.history d.answer) }
        ensures serves { DeskServes D.Disk self.old self.new (reply_to_ask self.old.desk ask).entry result }
        ensures ends { DeskEndsAsk D.Disk self.old self.new (reply_to_ask self.old.desk ask).entry result }
        ensures unmoved { (reply_to_ask self.old.desk ask).entry ≡ None → self.new ≡ self.old }
        ensures refused { IfErr result (λ e. (e ≡ Fault.DiskFault → ⊥) → self.new ≡ self.old) }
        ensures size { size_of self.old.desk.journal ≤ longest_size self.old.desk.terms self.old.desk.history }
        ensures lasts { D.lasts self.old.disk self.new.disk }
    {
        self.kept
            .ask(self.alloc, &mut self.disk, &mut self.asks, ask)
    }

    /// Answers an ask as `ask` does, without a copy of it: `ask_for` lends the one that the history keeps.
    pub fn take_ask(&mut self, ask: Ask) -> Result<Answer, DeskFault>
        requires formed { IsWellFormed (length self.old.desk.terms.day.budgets) ask }
        requires undecided { IsUndecided ask }
        ensures answer { IfOk result (λ a. a ≡ (reply_to_ask self.old.desk ask).answer) }
        ensures serves { DeskServes D.Disk self.old self.new (reply_to_ask self.old.desk ask).entry result }
        ensures ends { DeskEndsAsk D.Disk self.old self.new (reply_to_ask self.old.desk ask).entry result }
        ensures unmoved { (reply_to_ask self.old.desk ask).entry ≡ None → self.new ≡ self.old }
        ensures refused { IfErr result (λ e. (e ≡ Fault.DiskFault → ⊥) → self.new ≡ self.old) }
        ensures size { size_of self.old.desk.journal ≤ longest_size self.old.desk.terms self.old.desk.history }
        ensures lasts { D.lasts self.old.disk self.new.disk }
    {
        self.kept.take_ask(&mut self.disk, &mut self.asks, ask)
    }

    /// The ask that an answer to an ask speaks of: that of the entry that it names; none where it names none.
    pub fn ask_for(&self, answer: Answer) -> Option<&Ask>
        ensures { option_map (λ a. a.now) result ≡ ask_for self.now.desk.history answer }
    {
        lent_for(self.kept.day().entries(), answer)
    }

    /// Answers a change of a campaign's budget, in units: its number is at least 1. Where the reply has an entry, it is in
    /// the journal, and then in the history; all memory is taken before the disk is written. The refusals come in the
    /// order of the day's answers, then lack of memory, a journal without room, a fault of the disk. After a fault the
    /// history and the books are as before.
    pub fn set_budget(
        &mut self,
        campaign: u32,
        change: u32,
        budget: Units,
    ) -> Result<Answer, DeskFault>
        requires change { 1 ≤ change }
        requires budget { IsBudget budget }
        ensures answer { IfOk result (λ a. a ≡ (reply_to_change self.old.desk (change_of campaign change budget)).answer) }
        ensures serves { DeskServes D.Disk self.old self.new (reply_to_change self.old.desk (change_of campaign change budget)).entry result }
        ensures ends { DeskEndsAsk D.Disk self.old self.new (reply_to_change self.old.desk (change_of campaign change budget)).entry result }
        ensures unmoved { (reply_to_change self.old.desk (change_of campaign change budget)).entry ≡ None → self.new ≡ self.old }
        ensures refused { IfErr result (λ e. (e ≡ Fault.DiskFault → ⊥) → self.new ≡ self.old) }
        ensures size { size_of self.old.desk.journal ≤ longest_size self.old.desk.terms self.old.desk.history }
        ensures lasts { D.lasts self.old.disk self.new.disk }
    {
        self.kept
            .set_budget(&mut self.disk, &mut self.asks, campaign, change, budget)
    }

    /// Answers a notice of an award of an auction. Takes no memory; its only fault is the disk's.
    pub fn notice(
        &mut self,
        kind: NoticeKind,
        auction: &str,
        award: u32,
    ) -> Result<Answer, DeskFault>
        ensures answer { IfOk result (λ a. a ≡ (reply_to_notice self.old.desk kind auction.now award).answer) }
        ensures serves { DeskServes D.Disk self.old self.new (reply_to_notice self.old.desk kind auction.now award).entry result }
        ensures ends { DeskEndsNotice D.Disk self.old self.new result }
        ensures unmoved { (reply_to_notice self.old.desk kind auction.now award).entry ≡ None → self.new ≡ self.old }
        ensures lasts { D.lasts self.old.disk self.new.disk }
    {
        self.kept
            .notice(&mut self.disk, &mut self.notices, kind, auction, award)
    }

    /// Answers a tick at a moment in seconds. Takes no memory; its only fault is the disk's.
    pub fn tick(&mut self, now: u64) -> Result<Answer, DeskFault>
        requires { now < 2 ^ 63 }
        ensures answer { IfOk result (λ a. a ≡ (reply_to_tick self.old.desk now).answer) }
        ensures serves { DeskServes D.Disk self.old self.new (reply_to_tick self.old.desk now).entry result }
        ensures ends { DeskEndsNotice D.Disk self.old self.new result }
        ensures unmoved { (reply_to_tick self.old.desk now).entry ≡ None → self.new ≡ self.old }
        ensures lasts { D.lasts self.old.disk self.new.disk }
    {
        self.kept.tick(&mut self.disk, &mut self.notices, now)
    }

    /// Answers the calls of a batch that didn't run: each as a notice is answered after the entries of the calls before
    /// it. All their entries, at most 32, go into the journal as one record, which grows by five bytes and those of the entries;
    /// where there is none, the disk isn't touched. Takes no memory; its only fault is the disk's, after which the batch didn't run.
    pub fn batch(&mut self, batch: &mut Batch) -> Result<(), DeskFault>
        requires { batch.old.answers ≡ None }
        ensures answers { OnOk result (batch.new ≡ record batch.old { answers = Some (answers_in_turn self.old.desk.history batch.old.calls) }) }
        ensures waits { OnErr result (batch.new ≡ batch.old) }
        ensures serves { DeskServesAll D.Disk self.old self.new (entries_in_turn self.old.desk.history batch.old.calls) result }
        ensures ends { DeskEndsNotice D.Disk self.old self.new result }
        ensures unmoved { entries_in_turn self.old.desk.history batch.old.calls ≡ [] → self.new ≡ self.old }
        ensures few { length (entries_in_turn self.old.desk.history batch.old.calls) ≤ BATCH_LIMIT }
        ensures grown { OnOk result (0 < length (entries_in_turn self.old.desk.history batch.old.calls)
            → size_of self.new.desk.journal ≡ size_of self.old.desk.journal + (length (batch_bytes self.old.desk batch.old.calls) + 5)) }
        ensures lasts { D.lasts self.old.disk self.new.disk }
    {
        self.kept.batch(&mut self.disk, &mut self.notices, batch)
    }

    /// Whether a request is in the history, by its auction and its digest, or its auction with another request.
    pub fn seen(&self, auction: &str, digest: &[u8; 32]) -> Seen
        ensures { result ≡ seen_in self.now.desk.history auction.now digest.now }
    {
        self.kept.day().seen(auction, digest)
    }

    /// What happened so far: a legal history, whatever the disk reads and whatever was called, which the journal has
    /// in no more bytes than a record for each entry takes.
    pub fn entries(&self) -> &[Entry]
        ensures history { result.now ≡ self.now.desk.history }
        ensures legal { IsDay self.now.desk.terms.day self.now.desk.history }
        ensures size { size_of self.now.desk.journal ≤ longest_size self.now.desk.terms self.now.desk.history }
        ensures stands { self.now.since.tells ≡ true → StandsOnDisk (D.may_leave self.now.disk) self.now.desk }
    {
        self.kept.day().entries()
    }

    /// What an operator reads of the day, without a walk over its history.
    pub fn meters(&self) -> Meters
        ensures { result ≡ meters_after self.now.desk.history }
    {
        self.kept.meters()
    }

    /// What each entry from this place on did to the meters, from 0; `n` is at most the number of entries.
    pub fn steps_since(&self, n: u64) -> &[MeterStep]
        requires { n ≤ length self.now.desk.history }
        ensures { result.now ≡ drop n (steps_of self.now.desk.history) }
    {
        steps_from(self.kept.steps(), n as usize)
    }

    /// What happened from the entry with this place on, from 0; `n` is at most the number of entries.
    pub fn entries_since(&self, n: u64) -> &[Entry]
        requires { n ≤ length self.now.desk.history }
        ensures { result.now ≡ drop n self.now.desk.history }
    {
        since(self.kept.day().entries(), n as usize)
    }

    /// The money of each campaign.
    pub fn book(&self) -> &Book
        ensures { result.now ≡ accounts_in (budgets_after self.now.desk.terms.day self.now.desk.history) (awards_of self.now.desk.history) }
    {
        self.kept.day().book()
    }

    /// The number of entries.
    pub fn count(&self) -> u64
        ensures { result ≡ length self.now.desk.history }
    {
        self.kept.day().entries().len() as u64
    }

    /// How many bytes the journal has: at most 2^32.
    pub fn journal_size(&self) -> u64
        ensures size { result ≡ size_of self.now.desk.journal }
        ensures bound { result ≤ greatest_size }
    {
        self.kept.journal_size()
    }

    /// How many calls since opening answered a fault of the disk; it stays at 2^64 - 1. Each of them raised the
    /// disk's own count.
    pub fn faults(&self) -> u64
        ensures faults { result ≡ self.now.desk.faults }
        ensures within { IsWithinRise self.now.since.count result (D.faults self.now.disk) }
        ensures none { result ≡ 0 → D.faults self.now.disk ≡ self.now.since.count }
    {
        self.kept.faults()
    }
}

impl<D: Disk + Drop> Desk<D> {
    /// The day, and the disk that it was kept on.
    fn apart(self) -> (JournaledDay, D)
        ensures disk { result.1 ≡ self.disk }
        ensures stands { self.since.tells ≡ true → StandsOnDisk (D.may_leave result.1) self.desk }
    {
        (self.kept, self.disk)
    }

    /// Gives back the disk. Where it reported at the opening what it read, each of its images represents the history, or
    /// it and one record that a fault of the disk left in doubt.
    pub fn close(self) -> D
        ensures disk { result ≡ self.disk }
        ensures stands { self.since.tells ≡ true → StandsOnDisk (D.may_leave result) self.desk }
    {
        let (_kept, disk) = self.apart();
        disk
    }

    /// Gives back the disk as `close` does, but not the memory of the day: for a program that ends after it. The system
    /// takes that memory at once, while the many texts of a long day, freed one by one, take a part of its time.
    pub fn leave(self) -> D
        ensures disk { result ≡ self.disk }
        ensures stands { self.since.tells ≡ true → StandsOnDisk (D.may_leave result) self.desk }
    {
        let (kept, disk) = self.apart();
        forget(kept);
        disk
    }
}

/// The entries from a place on.
fn since(entries: &[Entry], n: usize) -> &[Entry]
    requires { n ≤ length entries.now }
    ensures { result.now ≡ drop n entries.now }
{
    &entries[n..]
}

/// The steps from a place on.
fn steps_from(steps: &[MeterStep], n: usize) -> &[MeterStep]
    requires { n ≤ length steps.now }
    ensures { result.now ≡ drop n steps.now }
{
    &steps[n..]
}
