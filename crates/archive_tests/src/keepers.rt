//! A keeper in memory.
use crate::calls::{CALLS, WRITTEN, row_of, writes};
use adx_units::OutOfMemory;
use day_archive::MemoryKeeper;
use std::alloc::Global;

/// Whether the calls over a keeper in memory, some of which fail, write this.
fn is_so(alloc: Global, fails: &[u64], letters: &str, wanted: &str) -> Result<bool, OutOfMemory> {
    let mut keeper = MemoryKeeper::new(alloc, fails)?;
    writes(alloc, &mut keeper, letters, wanted)
}

#[test]
fn a_keeper_in_memory_keeps_days(rt: HostRuntime) {
    let rows: [(&[u64], &str, &str); 4] = [
        (&[], CALLS, WRITTEN),
        (&[0], "al", "fault\nnot upgraded\n"),
        (
            &[1],
            "mml",
            "fault\n{\"answer\":\"kept\",\"day\":\"2025-03-01\"}\ndone\n2025-03-01\n",
        ),
        (&[1, 2], "al", "fault\nfault\n"),
    ];
    for (fails, letters, wanted) in rows {
        assert_eq!(rt;
            is_so(rt.alloc(), fails, letters, wanted),
            Ok(true),
            "{letters}"
        );
    }
}

/// Whether a row from before is listed so.
fn is_listed(alloc: Global, wanted: &str) -> Result<bool, OutOfMemory> {
    let row = row_of(alloc, "2025-03-01", None)?;
    let mut keeper = MemoryKeeper::with_old(alloc, &[row])?;
    writes(alloc, &mut keeper, "aml", wanted)
}

#[test]
fn a_row_from_before_has_no_number(rt: HostRuntime) {
    let wanted =
        "{\"day\":\"2025-03-01\",\"seat\":\"s1\",\"cid\":\"c1\",\"budget\":100,\"committed\":100,\"billed\":0,\"bound\":514,\"imps\":null}\ndone\n{\"answer\":\"keeper\",\"why\":\"daythere\",\"day\":\"2025-03-01\"}\nrefused\n2025-03-01\n";
    assert_eq!(rt; is_listed(rt.alloc(), wanted), Ok(true));
}
