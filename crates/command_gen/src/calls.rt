//! The calls of a generated day, taken on a desk.
ghost use Rattle.std.specs.Prelude.{◌≡◌, ◌+◌, ◌*◌, ◌%◌, ◌<◌, ◌≤◌, ℕ, [], ◌∷◌, length, decimal, option_map, OnOk};
ghost use Rattle.day_rules.specs.Asks.{IsUndecided, IsWellFormed};
ghost use Rattle.day_rules.specs.Replies.{notice as notice_call};
ghost use Rattle.adx_desk.specs.Answering.{IsOfCall};
ghost use Rattle.command_gen.specs.Generated.{calls_behind, notices_by, state_before, ticks_behind, word_at};
ghost use Rattle.command_gen.specs.Taking.{PassedBy, TakesAsk, TakesCalls, TakesDay, award_in};
ghost use Rattle.command_gen.specs.declared.generator.TheConstants.{MOST_ASKS as most_asks};
ghost use Rattle.command_gen.specs.Disks.{DeskTakesNumber};

use crate::asks::{ask_of, next_word};
use crate::early::EarlyEnd;
use crate::generator::Generator;
use adx_desk::{Desk, DeskFault};
use day_journal::Disk;
use day_rules::{Answer, Ask};
use itoa::Buffer;
use notice_book::NoticeKind;
use rand_core::SeedableRng;
use rand_xoshiro::SplitMix64;
use std::alloc::Global;

/// After each of so many asks time comes to the last one's moment.
const ASKS_OF_TICK: u64 = 100;

/// What a call that was given up is for the run: lack of the journal's room is passed over, and the others end it.
fn passed_over(fault: DeskFault) -> Result<(), EarlyEnd>
    requires { IsOfCall fault }
    ensures { PassedBy fault result }
{
    match fault {
        DeskFault::JournalFull { .. } => Ok(()),
        DeskFault::OutOfMemory => Err(EarlyEnd::OutOfMemory),
        DeskFault::DiskFault => Err(EarlyEnd::DiskFault),
        DeskFault::BadEntry { .. }
        | DeskFault::OtherRoster { .. }
        | DeskFault::NotAJournal { .. }
        | DeskFault::BadLength { .. } => unreachable!(),
    }
}

/// The number of an answered ask's award, if it was awarded.
fn award_of(answer: Answer, ask: Option<&Ask>) -> Option<u32>
    ensures { result ≡ award_in answer (option_map (λ a. a.now) ask.entry) }
{
    match answer {
        Answer::Awarded { .. } => Some(ask?.first),
        _ => None,
    }
}

/// Takes an ask, and gives the number of its award, if it was awarded.
fn take_ask<D: Disk>(desk: &mut Desk<D>, ask: Ask) -> Result<Option<u32>, EarlyEnd>
    requires well_formed { IsWellFormed (length desk.old.desk.terms.day.budgets) ask }
    requires undecided { IsUndecided ask }
    ensures takes { TakesAsk D.faults D.may_leave D.moment D.left_since desk.old desk.new ask result }
    ensures lasts { D.lasts desk.old.disk desk.new.disk }
{
    match desk.take_ask(ask) {
        Ok(answer) => Ok(award_of(answer, desk.ask_for(answer))),
        Err(fault) => {
            passed_over(fault)?;
            Ok(None)
        }
    }
}

/// Takes a notice.
fn take_notice<D: Disk>(
    desk: &mut Desk<D>,
    kind: NoticeKind,
    auction: &str,
    award: u32,
) -> Result<(), EarlyEnd>
    ensures takes { TakesCalls D.faults D.may_leave D.moment D.left_since desk.old desk.new (notice_call kind auction.now award ∷ []) result }
    ensures lasts { D.lasts desk.old.disk desk.new.disk }
{
    match desk.notice(kind, auction, award) {
        Ok(_) => Ok(()),
        Err(fault) => passed_over(fault),
    }
}

/// Takes the notices of an award that a word says.
fn take_notices<D: Disk>(
    desk: &mut Desk<D>,
    word: u64,
    auction: &str,
    award: u32,
) -> Result<(), EarlyEnd>
    ensures takes { TakesCalls D.faults D.may_leave D.moment D.left_since desk.old desk.new (notices_by (word % 4) auction.now award) result }
    ensures lasts { D.lasts desk.old.disk desk.new.disk }
{
    match word % 4 {
        1 => take_notice(desk, NoticeKind::Bill, auction, award),
        2 => take_notice(desk, NoticeKind::Loss, auction, award),
        3 => {
            take_notice(desk, NoticeKind::Bill, auction, award)?;
            take_notice(desk, NoticeKind::Bill, auction, award)
        }
        _ => Ok(()),
    }
}

/// Takes the tick after an ask, if one comes there.
fn take_tick<D: Disk>(desk: &mut Desk<D>, number: u64) -> Result<(), EarlyEnd>
    requires { number < most_asks }
    ensures takes { TakesCalls D.faults D.may_leave D.moment D.left_since desk.old desk.new (ticks_behind number) result }
    ensures lasts { D.lasts desk.old.disk desk.new.disk }
{
    if (number + 1) % ASKS_OF_TICK != 0 {
        return Ok(());
    }
    match desk.tick(number) {
        Ok(_) => Ok(()),
        Err(fault) => passed_over(fault),
    }
}

/// Takes what comes after an ask with this number: the notices of its award that a word says, and a tick.
fn take_behind<D: Disk>(
    desk: &mut Desk<D>,
    word: u64,
    award: Option<u32>,
    number: u64,
    id: &str,
) -> Result<(), EarlyEnd>
    requires few { number < most_asks }
    requires id { id.now ≡ decimal number }
    ensures takes { (seed : ℕ) → word ≡ word_at seed (9 * number + 8)
        → TakesCalls D.faults D.may_leave D.moment D.left_since desk.old desk.new (calls_behind seed number award) result }
    ensures lasts { D.lasts desk.old.disk desk.new.disk }
{
    match award {
        Some(award) => {
            take_notices(desk, word, id, award)?;
            take_tick(desk, number)
        }
        None => take_tick(desk, number),
    }
}

/// Takes the ask with this number, and what comes after it, by the next nine words.
fn take_calls<D: Disk>(
    alloc: Global,
    desk: &mut Desk<D>,
    words: &mut SplitMix64,
    number: u64,
) -> Result<(), EarlyEnd>
    requires few { number < most_asks }
    requires campaigns { length desk.old.desk.terms.day.budgets ≡ 16 }
    requires state { (seed : ℕ) × (words.old ≡ state_before seed (9 * number)) }
    ensures takes { (seed : ℕ) → words.old ≡ state_before seed (9 * number)
        → DeskTakesNumber D.Disk desk.old desk.new seed number result }
    ensures state { OnOk result ((seed : ℕ) → words.old ≡ state_before seed (9 * number) → words.new ≡ state_before seed (9 * (number + 1))) }
    ensures lasts { D.lasts desk.old.disk desk.new.disk }
{
    let mut buffer = Buffer::new();
    let id = buffer.format(number);
    let ask = ask_of(alloc, words, number, id)?;
    let award = take_ask(desk, ask)?;
    let word = next_word(words);
    take_behind(desk, word, award, number, id)
}

/// Takes all calls of a generated day.
pub(crate) fn take_day<D: Disk>(
    alloc: Global,
    desk: &mut Desk<D>,
    generator: Generator,
) -> Result<(), EarlyEnd>
    requires few { generator.asks ≤ most_asks }
    requires campaigns { length desk.old.desk.terms.day.budgets ≡ 16 }
    ensures takes { TakesDay D.faults D.may_leave D.moment D.left_since desk.old desk.new generator.seed generator.asks result }
    ensures lasts { D.lasts desk.old.disk desk.new.disk }
{
    let mut words = SplitMix64::seed_from_u64(generator.seed);
    'asks: for number in 0..generator.asks {
        take_calls(alloc, desk, &mut words, number)?;
    }
    Ok(())
}
