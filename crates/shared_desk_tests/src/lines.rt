//! The lines of a desk that nobody else calls: of an ask, of a fault, and its closing table.
ghost use Rattle.std.specs.Prelude.{◌≡◌, length};
ghost use Rattle.adx_desk.specs.Rosters.{desk_terms};

use crate::days::{ask, opened, roster};
use adx_desk::{Desk, DeskFault, answer_line, fault_line, table_of};
use adx_units::{OutOfMemory, Text};
use day_journal::MemoryDisk;
use deal_floor::Roster;
use std::alloc::Global;

/// The line of an ask with one bid.
const AWARDED: &str =
    r#"{"answer":"awarded","auction":"a1","awards":[{"award":0,"imp":"1","seat":"s1","cid":"c1","charge":25000}],"reasons":[0]}"#;

/// The closing table after it.
const TABLE: &str =
    r#"{"seat":"s1","cid":"c1","budget":10000000,"reserved":25000,"billed":0,"slab":0}
{"seat":"s1","cid":"c2","budget":10000000,"reserved":0,"billed":0,"slab":0}
{"asks":1,"awards":1,"entries":1}
"#;

/// The line of an ask with one bid.
fn asked(alloc: Global, roster: &Roster, desk: &mut Desk<MemoryDisk>) -> Result<Text, DeskFault>
    requires { length desk.old.desk.terms.day.budgets ≡ 2 }
    ensures { desk.new.desk.terms ≡ desk.old.desk.terms }
{
    let ask = ask(alloc, "a1", 7, 20, &[(0, 25_000, 60)])?;
    let done = desk.ask(ask)?;
    Ok(answer_line(alloc, roster, "a1", &done)?)
}

/// The closing table of a desk.
fn table(alloc: Global, roster: &Roster, desk: &Desk<MemoryDisk>) -> Result<Text, OutOfMemory>
    requires { desk.now.desk.terms ≡ desk_terms roster.now }
{
    table_of(alloc, desk, roster)
}

/// Whether the lines of a new desk are these.
fn are_said(alloc: Global) -> Result<[bool; 2], DeskFault> {
    let roster = roster(alloc)?;
    let mut desk = opened(alloc, &roster, &[], None)?;
    let line = asked(alloc, &roster, &mut desk)?;
    let table = table(alloc, &roster, &desk)?;
    Ok([line.as_str() == AWARDED, table.as_str() == TABLE])
}

/// Whether the line of a fault of the disk is this one.
fn is_fault_said(alloc: Global) -> Result<bool, OutOfMemory> {
    let line = fault_line(alloc, &DeskFault::DiskFault)?;
    Ok(line.as_str() == r#"{"answer":"diskfault"}"#)
}

#[test]
fn what_a_desk_says(rt: HostRuntime) {
    assert_eq!(rt; are_said(rt.alloc()), Ok([true; 2]));
    assert_eq!(rt; is_fault_said(rt.alloc()), Ok(true));
}
