//! A keeper over SQL, in memory and on a file.
use crate::calls::{CALLS, WRITTEN, writes};
use day_archive::Keeper;
use sql_archive::SqlKeeper;
use sqlite::Connection;
use std::alloc::Global;

/// A database of the first kind of tables, with two days.
const OLD: &str =
    "CREATE TABLE day(day TEXT PRIMARY KEY, bound TEXT NOT NULL); CREATE TABLE campaign(day TEXT NOT NULL REFERENCES day(day), seat TEXT NOT NULL, cid TEXT NOT NULL, budget INTEGER NOT NULL, committed TEXT NOT NULL, billed TEXT NOT NULL, PRIMARY KEY(day, seat, cid)); INSERT INTO day VALUES ('2025-02-02', '514'); INSERT INTO day VALUES ('2025-02-01', '340282366920938463463374607431768211455'); INSERT INTO campaign VALUES ('2025-02-02', 's1', 'c1', 100, '100', '0'); INSERT INTO campaign VALUES ('2025-02-01', 's1', 'c1', 1000000000000000, '200', '0')";

/// What is listed of them, behind a further day, and then again.
const OLD_WRITTEN: &str =
    "{\"answer\":\"kept\",\"day\":\"2025-03-01\"}\ndone\n{\"day\":\"2025-02-01\",\"seat\":\"s1\",\"cid\":\"c1\",\"budget\":1000000000000000,\"committed\":200,\"billed\":0,\"bound\":340282366920938463463374607431768211455,\"imps\":null}\n{\"day\":\"2025-02-02\",\"seat\":\"s1\",\"cid\":\"c1\",\"budget\":100,\"committed\":100,\"billed\":0,\"bound\":514,\"imps\":null}\n{\"day\":\"2025-03-01\",\"seat\":\"s1\",\"cid\":\"c1\",\"budget\":100,\"committed\":100,\"billed\":0,\"bound\":514,\"imps\":3}\ndone\n{\"answer\":\"keeper\",\"why\":\"daythere\",\"day\":\"2025-02-01\"}\nrefused\n2025-03-01\n";

/// Whether the calls over a new database in memory write what they write over a keeper in memory.
fn is_kept_in_memory(alloc: Global) -> bool {
    match Connection::open_in_memory(alloc) {
        Ok(conn) => {
            let mut keeper = SqlKeeper::new(alloc, conn);
            matches!(writes(alloc, &mut keeper, CALLS, WRITTEN), Ok(true))
        }
        Err(_) => false,
    }
}

/// Whether old tables are moved at the first call, and then no more.
fn is_moved(alloc: Global) -> bool {
    let Ok(mut conn) = Connection::open_in_memory(alloc) else {
        return false;
    };
    match conn.execute_batch(OLD) {
        Ok(_) => {}
        Err(_) => return false,
    }
    let mut keeper = SqlKeeper::new(alloc, conn);
    matches!(keeper.upgrade(), Ok(2))
        && matches!(keeper.upgrade(), Ok(0))
        && matches!(writes(alloc, &mut keeper, "mafl", OLD_WRITTEN), Ok(true))
}

/// Tables of other columns under the names of the archive's.
const OTHERS: [&str; 4] = [
    "CREATE TABLE day2(name TEXT)",
    "CREATE TABLE campaign2(day TEXT, seat TEXT, cid TEXT, budget INTEGER)",
    "CREATE TABLE day(name TEXT)",
    "CREATE TABLE day(day TEXT PRIMARY KEY, bound TEXT NOT NULL)",
];

/// Whether a database with this table is refused.
fn is_refused(alloc: Global, table: &str) -> bool {
    let Ok(mut conn) = Connection::open_in_memory(alloc) else {
        return false;
    };
    match conn.execute_batch(table) {
        Ok(_) => {}
        Err(_) => return false,
    }
    let mut keeper = SqlKeeper::new(alloc, conn);
    keeper.upgrade().is_err()
        && matches!(
            writes(alloc, &mut keeper, "al", "fault\nnot upgraded\n"),
            Ok(true)
        )
}

#[test]
fn a_database_in_memory_keeps_days(rt: HostRuntime) {
    assert!(rt; is_kept_in_memory(rt.alloc()));
    assert!(rt; is_moved(rt.alloc()));
    for table in OTHERS {
        assert!(rt; is_refused(rt.alloc(), table), "{table}");
    }
}

/// Whether the calls over a database on a file write this, and the file is closed.
fn is_kept_on(rt: &HostRuntime, path: &str, letters: &str, wanted: &str) -> bool {
    match Connection::open(rt, path) {
        Ok(conn) => {
            let mut keeper = SqlKeeper::new(rt.alloc(), conn);
            let is_so = matches!(writes(rt.alloc(), &mut keeper, letters, wanted), Ok(true));
            keeper.into_connection().close().is_ok() && is_so
        }
        Err(_) => false,
    }
}

/// What is written over the same file when it is opened again.
const AGAIN: &str =
    "{\"answer\":\"keeper\",\"why\":\"daythere\",\"day\":\"2025-03-01\"}\nrefused\n2025-03-01\n";

#[test]
fn a_database_on_a_file_keeps_days(rt: HostRuntime) {
    assert!(rt; is_kept_on(&rt, "days.db", CALLS, WRITTEN));
    assert!(rt; is_kept_on(&rt, "days.db", "ml", AGAIN));
}
