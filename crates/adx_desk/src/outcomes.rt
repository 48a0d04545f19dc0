//! Notices that are taken together, and one by one where the disk's fault gave that up.
ghost use Rattle.std.specs.Prelude.{◌≡◌, ◌≤◌, ◌∷◌, [], map, length, None, Some, IfSome, vec_capacity};
ghost use Rattle.day_machine.specs.Batches.{AreApart};
ghost use Rattle.day_machine.specs.declared.batch.TheConstants.{BATCH_LIMIT as batch_limit};
ghost use Rattle.adx_desk.specs.Together.{TakesNotices};

use crate::day_desk::DayDesk;
use day_machine::Batch;
use day_rules::Answer;
use notice_book::NoticeKind;

/// Takes the answers of a batch that ran.
fn take_answers(batch: &Batch, outcomes: &mut Vec<Option<Answer>>)
    requires room { length batch.now.calls ≤ vec_capacity outcomes.old }
    requires empty { outcomes.old.items ≡ [] }
    ensures answers { IfSome batch.now.answers (λ answers. length answers ≡ length batch.now.calls → outcomes.new.items ≡ map Some answers) }
    ensures room { vec_capacity outcomes.new ≡ vec_capacity outcomes.old }
{
    for i in 0..batch.len() {
        outcomes.push_reserved(batch.answer(i));
    }
}

/// Takes the notices of a batch one by one.
fn take_one_by_one<Y: DayDesk>(desk: &mut Y, batch: &Batch, outcomes: &mut Vec<Option<Answer>>)
    requires room { length batch.now.calls ≤ vec_capacity outcomes.old }
    requires empty { outcomes.old.items ≡ [] }
    ensures takes { TakesNotices Y.runs desk.old desk.new batch.now.calls outcomes.new.items }
    ensures room { vec_capacity outcomes.new ≡ vec_capacity outcomes.old }
    ensures place { Y.place desk.new ≡ Y.place desk.old }
{
    for i in 0..batch.len() {
        match batch.call(i) {
            Some((kind, auction, award)) => {
                outcomes.push_reserved(take_one(desk, kind, auction, award));
            }
            None => unreachable!(),
        }
    }
}

/// Takes a notice: the day's answer, or None where the disk's fault gave it up.
pub fn take_one<Y: DayDesk>(
    desk: &mut Y,
    kind: NoticeKind,
    auction: &str,
    award: u32,
) -> Option<Answer>
    ensures takes { TakesNotices Y.runs desk.old desk.new (record { kind = kind; auction = auction.now; award = award } ∷ []) (result ∷ []) }
    ensures place { Y.place desk.new ≡ Y.place desk.old }
{
    match desk.notice(kind, auction, award) {
        Ok(answer) => Some(answer),
        Err(_) => None,
    }
}

/// Takes the notices of a batch together, and where the disk's fault gave that up, one by one.
fn take_batch<Y: DayDesk>(desk: &mut Y, batch: &mut Batch, outcomes: &mut Vec<Option<Answer>>)
    requires waits { batch.old.answers ≡ None }
    requires few { length batch.old.calls ≤ batch_limit }
    requires apart { AreApart batch.old.calls }
    requires room { batch_limit ≤ vec_capacity outcomes.old }
    requires empty { outcomes.old.items ≡ [] }
    ensures takes { TakesNotices Y.runs desk.old desk.new batch.old.calls outcomes.new.items }
    ensures room { batch_limit ≤ vec_capacity outcomes.new }
    ensures place { Y.place desk.new ≡ Y.place desk.old }
{
    match desk.batch(batch) {
        Ok(()) => take_answers(batch, outcomes),
        Err(_) => take_one_by_one(desk, batch, outcomes),
    }
}

/// Takes the notices of a batch that didn't run, and empties it. The outcome of each is the day's answer, or None where the
/// disk's fault gave the notice up.
pub fn take_all<Y: DayDesk>(desk: &mut Y, batch: &mut Batch, outcomes: &mut Vec<Option<Answer>>)
    requires waits { batch.old.answers ≡ None }
    requires few { length batch.old.calls ≤ batch_limit }
    requires apart { AreApart batch.old.calls }
    requires room { batch_limit ≤ vec_capacity outcomes.old }
    ensures takes { TakesNotices Y.runs desk.old desk.new batch.old.calls outcomes.new.items }
    ensures empty { batch.new ≡ record { calls = []; answers = None } }
    ensures room { batch_limit ≤ vec_capacity outcomes.new }
    ensures place { Y.place desk.new ≡ Y.place desk.old }
{
    outcomes.clear();
    take_batch(desk, batch, outcomes);
    batch.clear();
}
