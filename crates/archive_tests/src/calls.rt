//! Calls of a keeper, and what they write.
ghost use Rattle.std.specs.Prelude.{◌≡◌, IfOk};

use adx_units::{Id, OutOfMemory, Text, Units};
use command_archive::{Filing, file_day, list_days};
use day_archive::{DayRow, Keeper};
use std::alloc::Global;

/// A name of a table.
fn named(alloc: Global, name: &str) -> Result<Id, OutOfMemory> {
    Id::of(alloc, name)?.ok_or(OutOfMemory)
}

/// The row of a campaign.
pub(crate) fn row_of(alloc: Global, day: &str, imps: Option<u64>) -> Result<DayRow, OutOfMemory>
    ensures { IfOk result (λ row. row.imps ≡ imps) }
{
    Ok(DayRow {
        day: Text::of(alloc, day)?,
        seat: named(alloc, "s1")?,
        cid: named(alloc, "c1")?,
        budget: Units(100),
        committed: 100,
        billed: 0,
        bound: 514,
        imps,
    })
}

/// Puts the end of a command behind what it wrote.
fn push_end(out: &mut String, end: Filing) -> Result<(), OutOfMemory> {
    let word = match end {
        Filing::Done => "done\n",
        Filing::Refused => "refused\n",
        Filing::Fault => "fault\n",
    };
    Ok(out.push_str(word)?)
}

/// Files a day.
fn file<P: Keeper>(keeper: &mut P, row: DayRow, out: &mut String) -> Result<(), OutOfMemory> {
    let end = file_day(keeper, &[row], out)?;
    push_end(out, end)
}

/// Lists the days of a campaign.
fn list<P: Keeper>(
    keeper: &mut P,
    first: &str,
    last: &str,
    out: &mut String,
) -> Result<(), OutOfMemory> {
    let end = list_days(keeper, "s1", "c1", first, last, out)?;
    push_end(out, end)
}

/// Puts the greatest kept day, or that there is none.
fn push_day(out: &mut String, last: Option<Text>) -> Result<(), OutOfMemory> {
    match last {
        Some(day) => Ok(out.push_str(day.as_str())?),
        None => Ok(out.push_str("no day")?),
    }
}

/// Puts the greatest kept day at the end.
fn push_last<P: Keeper>(keeper: &mut P, out: &mut String) -> Result<(), OutOfMemory> {
    if !keeper.upgraded() {
        return Ok(out.push_str("not upgraded\n")?);
    }
    match keeper.last_day() {
        Ok(last) => push_day(out, last)?,
        Err(_) => out.push_str("fault")?,
    }
    Ok(out.push_str("\n")?)
}

/// One call by a letter, and what it writes.
fn call<P: Keeper>(
    alloc: Global,
    keeper: &mut P,
    letter: char,
    out: &mut String,
) -> Result<(), OutOfMemory> {
    match letter {
        'm' => file(keeper, row_of(alloc, "2025-03-01", Some(3))?, out),
        'f' => file(keeper, row_of(alloc, "2025-02-01", Some(3))?, out),
        'n' => file(keeper, row_of(alloc, "2025-02-29", Some(3))?, out),
        'a' => list(keeper, "2025-01-01", "2025-12-31", out),
        'o' => list(keeper, "2025-02-01", "2025-02-01", out),
        'r' => list(keeper, "2025-12-31", "2025-01-01", out),
        'd' => list(keeper, "2025-02-30", "2025-12-31", out),
        'l' => push_last(keeper, out),
        _ => Err(OutOfMemory),
    }
}

/// Whether calls by letters write this.
pub(crate) fn writes<P: Keeper>(
    alloc: Global,
    keeper: &mut P,
    letters: &str,
    wanted: &str,
) -> Result<bool, OutOfMemory> {
    let mut out = String::new(alloc);
    for letter in letters.chars() {
        call(alloc, keeper, letter, &mut out)?;
    }
    Ok(out.as_str() == wanted)
}

/// Calls that put a day and read it, by letters.
pub(crate) const CALLS: &str = "lalmmfnlaord";

/// What they write over a keeper that keeps nothing yet.
pub(crate) const WRITTEN: &str =
    "not upgraded\ndone\nno day\n{\"answer\":\"kept\",\"day\":\"2025-03-01\"}\ndone\n{\"answer\":\"keeper\",\"why\":\"daythere\",\"day\":\"2025-03-01\"}\nrefused\n{\"answer\":\"kept\",\"day\":\"2025-02-01\"}\ndone\n{\"answer\":\"keeper\",\"why\":\"baddate\",\"day\":\"2025-02-29\"}\nrefused\n2025-03-01\n{\"day\":\"2025-02-01\",\"seat\":\"s1\",\"cid\":\"c1\",\"budget\":100,\"committed\":100,\"billed\":0,\"bound\":514,\"imps\":3}\n{\"day\":\"2025-03-01\",\"seat\":\"s1\",\"cid\":\"c1\",\"budget\":100,\"committed\":100,\"billed\":0,\"bound\":514,\"imps\":3}\ndone\n{\"day\":\"2025-02-01\",\"seat\":\"s1\",\"cid\":\"c1\",\"budget\":100,\"committed\":100,\"billed\":0,\"bound\":514,\"imps\":3}\ndone\n{\"answer\":\"keeper\",\"why\":\"badrange\"}\nrefused\n{\"answer\":\"keeper\",\"why\":\"baddate\",\"day\":\"2025-02-30\"}\nrefused\n";
