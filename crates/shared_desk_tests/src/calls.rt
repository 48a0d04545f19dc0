//! Each call of a shared desk, on one thread: its answers, and what its looks tell.
ghost use Rattle.std.specs.Prelude.{◌≡◌, true, None, length, IfOk};
ghost use Rattle.turnstile.specs.Passes.{IsOf, IsSamePass};
ghost use Rattle.adx_desk.specs.Rosters.{desk_terms};
ghost use Rattle.adx_desk.specs.Shared.{terms_in};

use crate::bills::{DeskPass, Shared, sold};
use crate::days::{ask, roster};
use adx_desk::DeskFault;
use adx_units::{OutOfMemory, Units};
use day_machine::Batch;
use day_rules::{Answer, Meters, Seen, folded};
use deal_floor::Roster;
use notice_book::NoticeKind;
use std::alloc::Global;
use std::sync::Wait;

/// A call behind the first ask.
#[derive(Clone, Copy)]
enum Call {
    /// An ask of an auction with one bid.
    Ask(&'static str),
    Notice(NoticeKind, u32),
    Tick(u64),
    /// A change of the first campaign's budget: its number and the budget.
    Budget(u32, u64),
}

/// What a shared desk answers to a call.
fn answer<R: Wait>(
    rt: &R,
    alloc: Global,
    desk: &Shared,
    pass: &mut DeskPass,
    call: Call,
) -> Result<Answer, DeskFault>
    requires of { IsOf pass.old desk.now }
    requires two { length desk.now.fixed.budgets ≡ 2 }
    ensures { IsSamePass pass.old pass.new }
{
    match call {
        Call::Ask(auction) => {
            let ask = ask(alloc, auction, 7, 20, &[(1, 25_000, 60)])?;
            let done = desk.ask(rt, pass, ask)?;
            Ok(done.answer)
        }
        Call::Notice(kind, award) => desk.notice(rt, pass, kind, "a1", award),
        Call::Tick(now) => desk.tick(rt, pass, now % 1_000_000),
        Call::Budget(change, budget) => {
            let budget = Units(budget.clamp(1, 10_000_000));
            desk.set_budget(rt, pass, 0, change.max(1), budget)
        }
    }
}

/// The calls behind the first ask, and their answers.
const CALLS: [(Call, Answer); 8] = [
    (Call::Ask("a1"), Answer::Repeat { entry: 0 }),
    (Call::Notice(NoticeKind::Bill, 0), Answer::Counted),
    (
        Call::Notice(NoticeKind::Bill, 0),
        Answer::Repeat { entry: 1 },
    ),
    (Call::Notice(NoticeKind::Win, 7), Answer::Unknown),
    (Call::Budget(1, 5_000_000), Answer::Budgeted),
    (Call::Budget(1, 5_000_000), Answer::Repeat { entry: 2 }),
    (Call::Ask("a2"), Answer::Awarded { entry: 3 }),
    (Call::Tick(1_000), Answer::Ticked { ended: 1 }),
];

/// Makes the calls, and tells how many answers aren't the table's.
fn wrong_answers<R: Wait>(
    rt: &R,
    alloc: Global,
    desk: &Shared,
    pass: &mut DeskPass,
) -> Result<u64, DeskFault>
    requires of { IsOf pass.old desk.now }
    requires two { length desk.now.fixed.budgets ≡ 2 }
    ensures { IsSamePass pass.old pass.new }
{
    let mut wrong: u64 = 0;
    for (call, wanted) in CALLS {
        if answer(rt, alloc, desk, pass, call)? != wanted {
            wrong = wrong.saturating_add(1);
        }
    }
    Ok(wrong)
}

/// What requests are told to be in the history: one that stands there, another of the same auction, one of a new auction.
fn seen<R: Wait>(rt: &R, desk: &Shared, pass: &mut DeskPass) -> [Seen; 3]
    requires { IsOf pass.old desk.now }
    ensures { IsSamePass pass.old pass.new }
{
    [
        desk.seen(rt, pass, "a1", &[7; 32]),
        desk.seen(rt, pass, "a1", &[8; 32]),
        desk.seen(rt, pass, "a9", &[7; 32]),
    ]
}

/// How many entries are copied, and how many steps are told, from a place on.
fn since<R: Wait>(
    rt: &R,
    alloc: Global,
    desk: &Shared,
    pass: &mut DeskPass,
    place: u64,
) -> Result<[usize; 2], OutOfMemory>
    requires { IsOf pass.old desk.now }
    ensures { IsSamePass pass.old pass.new }
{
    let copies = desk.copy_since(rt, alloc, pass, place)?;
    let steps = desk.steps_since(rt, alloc, pass, place)?;
    Ok([copies.len(), steps.len()])
}

/// The meters of all steps.
fn meters<R: Wait>(
    rt: &R,
    alloc: Global,
    desk: &Shared,
    pass: &mut DeskPass,
) -> Result<Meters, OutOfMemory>
    requires { IsOf pass.old desk.now }
    ensures { IsSamePass pass.old pass.new }
{
    let steps = desk.steps_since(rt, alloc, pass, 0)?;
    Ok(folded(Meters::new(), steps.as_slice()))
}

/// The closing table behind the calls.
const TABLE: &str =
    r#"{"seat":"s1","cid":"c1","budget":5000000,"reserved":0,"billed":2500000,"slab":50}
{"seat":"s1","cid":"c2","budget":10000000,"reserved":0,"billed":0,"slab":0}
{"asks":2,"awards":2,"entries":5}
"#;

/// Whether a shared desk tells that table.
fn is_table<R: Wait>(
    rt: &R,
    alloc: Global,
    desk: &Shared,
    pass: &mut DeskPass,
    roster: &Roster,
) -> bool
    requires of { IsOf pass.old desk.now }
    requires roster { terms_in desk.now.fixed ≡ desk_terms roster.now }
    ensures { IsSamePass pass.old pass.new }
{
    match desk.book_lines(rt, alloc, pass, roster) {
        Ok(table) => table.as_str() == TABLE,
        Err(_) => false,
    }
}

/// What the calls and looks come to: how many answers aren't the table's, what requests are told to be in the history,
/// how many entries and steps there are from places on, and whether the closing table is right and the steps make the
/// meters of the desk that is closed then.
#[derive(Clone, Copy, Debug, PartialEq, Eq)]
struct Found {
    wrong: u64,
    seen: [Seen; 3],
    since: [[usize; 2]; 3],
    table: bool,
    meters: bool,
}

/// Makes the calls and looks of a shared desk behind a first ask.
fn looked<R: Wait>(
    rt: &R,
    alloc: Global,
    roster: &Roster,
    shared: Shared,
    first: DeskPass,
) -> Result<Found, DeskFault>
    requires of { IsOf first shared }
    requires first { (first.is_first ≡ true) × (first.out ≡ 0) }
    requires two { length shared.fixed.budgets ≡ 2 }
    requires roster { terms_in shared.fixed ≡ desk_terms roster.now }
{
    let mut first = first;
    let wrong = wrong_answers(rt, alloc, &shared, &mut first)?;
    let seen = seen(rt, &shared, &mut first);
    let since = [
        since(rt, alloc, &shared, &mut first, 0)?,
        since(rt, alloc, &shared, &mut first, 3)?,
        since(rt, alloc, &shared, &mut first, 9)?,
    ];
    let table = is_table(rt, alloc, &shared, &mut first, roster);
    let meters = meters(rt, alloc, &shared, &mut first)?;
    let desk = shared.close(first);
    Ok(Found {
        wrong,
        seen,
        since,
        table,
        meters: meters == desk.meters(),
    })
}

/// Makes them on a new disk.
fn sell_and_look<R: Wait>(rt: &R, alloc: Global) -> Result<Found, DeskFault> {
    let roster = roster(alloc)?;
    let (shared, first) = sold(rt, alloc, &roster, &[], None)?;
    looked(rt, alloc, &roster, shared, first)
}

#[test]
fn each_call(rt: HostRuntime) {
    let wanted = Found {
        wrong: 0,
        seen: [
            Seen::Same { entry: 0 },
            Seen::Other { kept: [7; 32] },
            Seen::New,
        ],
        since: [[5, 5], [2, 2], [0, 0]],
        table: true,
        meters: true,
    };
    assert_eq!(rt; sell_and_look(&rt, rt.alloc()), Ok(wanted));
}

/// What became of two bills and a win in a batch: whether the disk failed the first time and the second, the answers in the
/// end, and the numbers of entries and faults.
#[derive(Clone, Copy, Debug, PartialEq, Eq)]
struct Batched {
    failed: [bool; 2],
    answers: [Option<Answer>; 2],
    entries: u64,
    faults: u64,
}

/// A batch of the bill of the first award and a notice of none.
fn bills(alloc: Global) -> Result<Batch, OutOfMemory>
    ensures { IfOk result (λ b. b.answers ≡ None) }
{
    let mut batch = Batch::new(alloc)?;
    let _bill = waiting(&mut batch, NoticeKind::Bill, "a1", 0);
    let _none = waiting(&mut batch, NoticeKind::Win, "a9", 5);
    Ok(batch)
}

/// Adds a notice to a batch that didn't run.
fn waiting(batch: &mut Batch, kind: NoticeKind, auction: &str, award: u32) -> bool
    requires { batch.old.answers ≡ None }
    ensures { batch.new.answers ≡ None }
{
    batch.add(kind, auction, award)
}

/// Answers a batch, and once more where the disk failed.
fn answered<R: Wait>(rt: &R, shared: Shared, first: DeskPass, batch: Batch) -> Batched
    requires of { IsOf first shared }
    requires first { (first.is_first ≡ true) × (first.out ≡ 0) }
    requires waits { batch.answers ≡ None }
{
    let mut first = first;
    let mut batch = batch;
    let failed = shared.batch(rt, &mut first, &mut batch).is_err();
    let again = failed && shared.batch(rt, &mut first, &mut batch).is_err();
    let desk = shared.close(first);
    Batched {
        failed: [failed, again],
        answers: [batch.answer(0), batch.answer(1)],
        entries: desk.count(),
        faults: desk.faults(),
    }
}

/// Answers it on a disk whose calls fail by these words.
fn sell_and_answer<R: Wait>(rt: &R, alloc: Global, fails: &[u64]) -> Result<Batched, DeskFault> {
    let roster = roster(alloc)?;
    let batch = bills(alloc)?;
    let (shared, first) = sold(rt, alloc, &roster, fails, None)?;
    Ok(answered(rt, shared, first, batch))
}

/// Rows of which call of the disk fails (18 of them are made before the batch), and whether it failed so.
#[test]
fn a_batch_runs_together(rt: HostRuntime) {
    let rows: [(&[u64], bool, u64); 3] = [(&[], false, 0), (&[18], true, 1), (&[20], true, 1)];
    for (fails, failed, faults) in rows {
        let wanted = Batched {
            failed: [failed, false],
            answers: [Some(Answer::Counted), Some(Answer::Unknown)],
            entries: 2,
            faults,
        };
        assert_eq!(rt; sell_and_answer(&rt, rt.alloc(), fails), Ok(wanted));
    }
}
