//! Rows read from the tables.
ghost use Rattle.std.specs.Prelude.{◌≡◌};
ghost use Rattle.sql_archive.specs.Counted.{IsCounted};

use crate::broken::Broken;
use crate::counted::Counted;
use adx_units::{Id, Text, Units};
use day_archive::DayRow;
use formats::{is_done, wide_number};
use sqlite::{Alter, Row, params};
use std::alloc::Global;

const FIND_CAMPAIGN: &str =
    "SELECT day, budget, committed, billed FROM campaign2 WHERE seat = ?1 AND cid = ?2 AND day >= ?3 AND day <= ?4 ORDER BY day";

const FIND_HEAD: &str = "SELECT bound, imps FROM day2 WHERE day = ?1";

const FIND_LAST: &str = "SELECT day FROM day2 ORDER BY day DESC LIMIT 1";

/// An amount in decimal.
fn amount_of(text: &str) -> Result<u128, Broken> {
    let Some((amount, rest)) = wide_number(text.as_bytes()) else {
        return Err(Broken);
    };
    match is_done(rest) {
        Some(()) => Ok(amount),
        None => Err(Broken),
    }
}

/// An amount of a row, in decimal.
fn amount_at(row: &Row, at: usize) -> Result<u128, Broken> {
    let text: String = row.get(at)?;
    amount_of(text.as_str())
}

/// What the rows of a day have in common.
#[derive(Drop)]
struct Head {
    bound: u128,
    imps: Option<u64>,
}

/// What a row of a day says.
fn head_in(row: &Row) -> Result<Head, Broken> {
    Ok(Head {
        bound: amount_at(row, 0)?,
        imps: row.get(1)?,
    })
}

/// What the rows of a day have in common, of which there is one row.
fn only_head(rows: &[Row]) -> Result<Head, Broken> {
    match rows.first() {
        Some(row) => head_in(row),
        None => Err(Broken),
    }
}

fn head_of<S: Alter>(conn: &mut Counted<S>, day: &str) -> Result<Head, Broken>
    ensures { IsCounted conn.old.faults conn.new.faults result }
{
    let rows = conn.query(FIND_HEAD, params![day])?;
    conn.counted(only_head(rows.as_slice()))
}

fn named(alloc: Global, name: &str) -> Result<Id, Broken> {
    match Id::of(alloc, name)? {
        Some(name) => Ok(name),
        None => Err(Broken),
    }
}

/// A campaign's row as it is in the tables, beside what it has in common with others of its day.
fn row_in(
    alloc: Global,
    seat: &str,
    cid: &str,
    day: String,
    head: Head,
    row: &Row,
) -> Result<DayRow, Broken> {
    let budget: u64 = row.get(1)?;
    Ok(DayRow {
        day: Text::from(day),
        seat: named(alloc, seat)?,
        cid: named(alloc, cid)?,
        budget: Units(budget),
        committed: amount_at(row, 2)?,
        billed: amount_at(row, 3)?,
        bound: head.bound,
        imps: head.imps,
    })
}

/// The day of a row.
pub(crate) fn day_at(row: &Row) -> Result<String, Broken> {
    let day: String = row.get(0)?;
    Ok(day)
}

/// A campaign's row as it is in the tables.
fn row_of<S: Alter>(
    alloc: Global,
    conn: &mut Counted<S>,
    seat: &str,
    cid: &str,
    row: &Row,
) -> Result<DayRow, Broken>
    ensures { IsCounted conn.old.faults conn.new.faults result }
{
    let day = conn.counted(day_at(row))?;
    let head = head_of(conn, day.as_str())?;
    conn.counted(row_in(alloc, seat, cid, day, head, row))
}

/// A row put at the end, where memory isn't refused.
fn push(rows: &mut Vec<DayRow>, row: DayRow) -> Result<(), Broken> {
    rows.push(row)?;
    Ok(())
}

/// The rows of a campaign that were found.
fn rows_of<S: Alter>(
    alloc: Global,
    conn: &mut Counted<S>,
    seat: &str,
    cid: &str,
    found: &[Row],
) -> Result<Vec<DayRow>, Broken>
    ensures { IsCounted conn.old.faults conn.new.faults result }
{
    let mut rows = Vec::new(alloc);
    for row in found {
        let row = row_of(alloc, conn, seat, cid, row)?;
        conn.counted(push(&mut rows, row))?;
    }
    Ok(rows)
}

/// Which rows of a campaign are looked for: from a first day to a last, both included.
#[derive(Clone, Copy)]
pub(crate) struct Range<'a> {
    pub(crate) seat: &'a str,
    pub(crate) cid: &'a str,
    pub(crate) first: &'a str,
    pub(crate) last: &'a str,
}

/// The rows of a campaign, in order of day, read in one transaction.
fn days_in<S: Alter>(
    alloc: Global,
    conn: &mut Counted<S>,
    range: Range<'_>,
) -> Result<Vec<DayRow>, Broken>
    ensures { IsCounted conn.old.faults conn.new.faults result }
{
    let found = conn.query(
        FIND_CAMPAIGN,
        params![range.seat, range.cid, range.first, range.last],
    )?;
    rows_of(alloc, conn, range.seat, range.cid, found.as_slice())
}

/// The rows of a campaign, in order of day.
pub(crate) fn find_days<S: Alter>(
    alloc: Global,
    conn: &mut Counted<S>,
    range: Range<'_>,
) -> Result<Vec<DayRow>, Broken>
    ensures { IsCounted conn.old.faults conn.new.faults result }
{
    conn.begin()?;
    let answer = days_in(alloc, conn, range);
    conn.ended(answer)
}

/// The day of the first row, where there is one.
fn first_day(rows: &[Row]) -> Result<Option<Text>, Broken> {
    match rows.first() {
        Some(row) => Ok(Some(Text::from(day_at(row)?))),
        None => Ok(None),
    }
}

/// The greatest day.
pub(crate) fn find_last<S: Alter>(conn: &mut Counted<S>) -> Result<Option<Text>, Broken>
    ensures { IsCounted conn.old.faults conn.new.faults result }
{
    let found = conn.query(FIND_LAST, &[])?;
    conn.counted(first_day(found.as_slice()))
}
