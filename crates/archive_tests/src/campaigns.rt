//! A day of several campaigns over SQL: each is found by its seat and its id, and a statement that is refused in the middle
//! leaves no row of the day.
use adx_io::{MemorySink, MemorySource};
use adx_units::OutOfMemory;
use command_archive::{keep_day, list_days};
use day_archive::Keeper;
use sql_archive::SqlKeeper;
use sqlite::{Connection, MemStore};
use std::alloc::Global;

/// A day of two seats, of which each has a campaign c1, and the first a campaign c2 too.
const DAY: &str =
    "adx-record 2\nday 2025-03-01\ncampaign 0 100 0 \"s1\" \"c1\"\ncampaign 1 200 0 \"s1\" \"c2\"\ncampaign 2 300 0 \"s2\" \"c1\"\nend 0\nadx-cert 1\nalpha 0 0\nalpha 1 0\nalpha 2 0\nbound 0\n";

/// The same day with the first campaign alone.
const ONE: &str =
    "adx-record 2\nday 2025-03-01\ncampaign 0 100 0 \"s1\" \"c1\"\nend 0\nadx-cert 1\nalpha 0 0\nbound 0\n";

const KEPT: &str = "{\"answer\":\"kept\",\"day\":\"2025-03-01\"}\n";

const THERE: &str = "{\"answer\":\"keeper\",\"why\":\"daythere\",\"day\":\"2025-03-01\"}\n";

/// The tables, of which the second refuses a campaign c2.
const WITHOUT_C2: &str =
    "CREATE TABLE day2(day TEXT PRIMARY KEY, bound TEXT NOT NULL, imps INTEGER); CREATE TABLE campaign2(day TEXT NOT NULL REFERENCES day2(day), seat TEXT NOT NULL, cid TEXT NOT NULL CHECK (cid <> 'c2'), budget INTEGER NOT NULL, committed TEXT NOT NULL, billed TEXT NOT NULL, PRIMARY KEY(day, seat, cid))";

/// Tables of the first kind with two days, of which the second has a campaign c2.
const OLD: &str =
    "CREATE TABLE day(day TEXT PRIMARY KEY, bound TEXT NOT NULL); CREATE TABLE campaign(day TEXT NOT NULL REFERENCES day(day), seat TEXT NOT NULL, cid TEXT NOT NULL, budget INTEGER NOT NULL, committed TEXT NOT NULL, billed TEXT NOT NULL, PRIMARY KEY(day, seat, cid)); INSERT INTO day VALUES ('2025-03-01', '7'); INSERT INTO day VALUES ('2025-03-02', '8'); INSERT INTO campaign VALUES ('2025-03-01', 's1', 'c1', 100, '1', '0'); INSERT INTO campaign VALUES ('2025-03-02', 's1', 'c1', 100, '2', '0'); INSERT INTO campaign VALUES ('2025-03-02', 's1', 'c2', 100, '3', '0')";

/// A keeper over a database in memory in which these statements were run.
fn keeper_after(alloc: Global, statements: &str) -> Option<SqlKeeper<MemStore>> {
    let Ok(mut conn) = Connection::open_in_memory(alloc) else {
        return None;
    };
    match conn.execute_batch(statements) {
        Ok(_) => Some(SqlKeeper::new(alloc, conn)),
        Err(_) => None,
    }
}

/// Whether a document gives this status and this line.
fn gives<P: Keeper>(
    alloc: Global,
    keeper: &mut P,
    document: &str,
    status: u8,
    line: &str,
) -> Result<bool, OutOfMemory> {
    let mut source = MemorySource::new(alloc, document.as_bytes(), 99, &[])?;
    let mut sink = MemorySink::new(alloc, 99, &[])?;
    let ended = keep_day(alloc, keeper, &mut source, &mut sink);
    Ok(ended == status && sink.taken() == line.as_bytes())
}

/// Whether the days of a campaign are these lines.
fn lists<P: Keeper>(
    alloc: Global,
    keeper: &mut P,
    seat: &str,
    cid: &str,
    wanted: &str,
) -> Result<bool, OutOfMemory> {
    let mut out = String::new(alloc);
    let _ = list_days(keeper, seat, cid, "2025-01-01", "2025-12-31", &mut out)?;
    Ok(out.as_str() == wanted)
}

/// Whether each campaign of a day is found by its seat and its id, and no other is.
fn are_apart<P: Keeper>(alloc: Global, keeper: &mut P) -> Result<bool, OutOfMemory> {
    Ok(
        gives(alloc, keeper, DAY, 0, KEPT)?
            && lists(
                alloc,
                keeper,
                "s1",
                "c1",
                "{\"day\":\"2025-03-01\",\"seat\":\"s1\",\"cid\":\"c1\",\"budget\":100,\"committed\":0,\"billed\":0,\"bound\":0,\"imps\":0}\n",
            )?
            && lists(
                alloc,
                keeper,
                "s1",
                "c2",
                "{\"day\":\"2025-03-01\",\"seat\":\"s1\",\"cid\":\"c2\",\"budget\":200,\"committed\":0,\"billed\":0,\"bound\":0,\"imps\":0}\n",
            )?
            && lists(
                alloc,
                keeper,
                "s2",
                "c1",
                "{\"day\":\"2025-03-01\",\"seat\":\"s2\",\"cid\":\"c1\",\"budget\":300,\"committed\":0,\"billed\":0,\"bound\":0,\"imps\":0}\n",
            )?
            && lists(alloc, keeper, "s2", "c2", "")?,
    )
}

#[test]
fn campaigns_of_a_day_are_apart(rt: HostRuntime) {
    match keeper_after(rt.alloc(), "") {
        Some(mut keeper) => assert_eq!(rt; are_apart(rt.alloc(), &mut keeper), Ok(true)),
        None => assert!(rt; false, "no database"),
    }
}

/// Whether a day whose second row is refused leaves no row: it is a fault, and the same day with one row is kept then.
fn leaves_no_row<P: Keeper>(alloc: Global, keeper: &mut P) -> Result<bool, OutOfMemory> {
    Ok(
        gives(alloc, keeper, DAY, 9, "")?
            && lists(alloc, keeper, "s1", "c1", "")?
            && gives(alloc, keeper, ONE, 0, KEPT)?
            && gives(alloc, keeper, DAY, 10, THERE)?,
    )
}

#[test]
fn a_refused_row_leaves_no_row(rt: HostRuntime) {
    match keeper_after(rt.alloc(), WITHOUT_C2) {
        Some(mut keeper) => assert_eq!(rt; leaves_no_row(rt.alloc(), &mut keeper), Ok(true)),
        None => assert!(rt; false, "no database"),
    }
}

/// How many rows a table has.
fn rows_in(conn: &mut Connection<MemStore>, query: &str) -> Option<usize> {
    match conn.query_all(query, &[]) {
        Ok(rows) => Some(rows.len()),
        Err(_) => None,
    }
}

/// Whether a move whose last row is refused moves no row.
fn moves_no_row(mut keeper: SqlKeeper<MemStore>) -> bool {
    if keeper.upgrade().is_ok() || keeper.upgraded() {
        return false;
    }
    let mut conn = keeper.into_connection();
    rows_in(&mut conn, "SELECT day FROM day") == Some(2)
        && rows_in(&mut conn, "SELECT cid FROM campaign") == Some(3)
        && rows_in(&mut conn, "SELECT day FROM day2") == Some(0)
        && rows_in(&mut conn, "SELECT cid FROM campaign2") == Some(0)
}

/// A keeper over a database in which both were run.
fn keeper_after_both(alloc: Global, first: &str, second: &str) -> Option<SqlKeeper<MemStore>> {
    let keeper = keeper_after(alloc, first)?;
    let mut conn = keeper.into_connection();
    match conn.execute_batch(second) {
        Ok(_) => Some(SqlKeeper::new(alloc, conn)),
        Err(_) => None,
    }
}

#[test]
fn a_refused_move_moves_no_row(rt: HostRuntime) {
    match keeper_after_both(rt.alloc(), WITHOUT_C2, OLD) {
        Some(keeper) => assert!(rt; moves_no_row(keeper)),
        None => assert!(rt; false, "no database"),
    }
}

/// The tables with a day that the old ones have too.
const BOTH: &str =
    "CREATE TABLE day2(day TEXT PRIMARY KEY, bound TEXT NOT NULL, imps INTEGER); CREATE TABLE campaign2(day TEXT NOT NULL REFERENCES day2(day), seat TEXT NOT NULL, cid TEXT NOT NULL, budget INTEGER NOT NULL, committed TEXT NOT NULL, billed TEXT NOT NULL, PRIMARY KEY(day, seat, cid)); INSERT INTO day2 VALUES ('2025-03-01', '514', 3); INSERT INTO campaign2 VALUES ('2025-03-01', 's1', 'c1', 100, '100', '0')";

/// What is listed of both.
const BOTH_LISTED: &str =
    "{\"day\":\"2025-03-01\",\"seat\":\"s1\",\"cid\":\"c1\",\"budget\":100,\"committed\":100,\"billed\":0,\"bound\":514,\"imps\":3}\n{\"day\":\"2025-03-02\",\"seat\":\"s1\",\"cid\":\"c1\",\"budget\":100,\"committed\":2,\"billed\":0,\"bound\":8,\"imps\":null}\n";

/// Whether a day that is in both kinds of tables is refused, and the others go on.
fn goes_on<P: Keeper>(alloc: Global, keeper: &mut P) -> Result<bool, OutOfMemory> {
    Ok(
        matches!(keeper.upgrade(), Ok(1))
            && matches!(keeper.upgrade(), Ok(0))
            && gives(alloc, keeper, ONE, 10, THERE)?
            && lists(alloc, keeper, "s1", "c1", BOTH_LISTED)?,
    )
}

#[test]
fn a_day_in_both_tables_is_refused_alone(rt: HostRuntime) {
    match keeper_after_both(rt.alloc(), BOTH, OLD) {
        Some(mut keeper) => assert_eq!(rt; goes_on(rt.alloc(), &mut keeper), Ok(true)),
        None => assert!(rt; false, "no database"),
    }
}
