//! Runs `adx_serve`, the call of the commands that talk over the network, over an acceptor, links, a disk and workers, and
//! compares what is seen of each run with a row that says it; writes each row that isn't as it says, and how many there are.
//!
//! Each line of standard input is a row, FIELDS` => `SEEN; an empty line and one that begins with `# ` are none. The fields and
//! their letters are in `row` and in `objects`; what is seen, in `served`.
#![tactic(auto)]

mod meeting;
mod objects;
mod row;
mod served;

use crate::row::said_of;
use adx_units::OutOfMemory;
use anyhow::Result;
use std::alloc::Global;
use std::fmt::Write;
use std::io::Read;
use std::marker::Sync;
use std::process::ExitCode;
use std::sync::Wait;
use std::thread::Threads;

/// How many rows there are, and how many of them aren't as they say.
#[derive(Clone, Copy)]
struct Count {
    rows: u64,
    wrong: u64,
}

/// Adds a line's row where it isn't as it says, and counts it.
fn follow<R: Threads + Wait + Sync>(
    rt: &R,
    alloc: Global,
    out: &mut String,
    line: &str,
    count: Count,
) -> std::result::Result<Count, OutOfMemory> {
    let (fields, said) = line.rsplit_once(" => ").unwrap_or((line, ""));
    let given = said_of(rt, alloc, fields)?;
    let rows = count.rows.saturating_add(1);
    if given.as_str() == said {
        return Ok(Count { rows, ..count });
    }
    write!(out, "{line}\n    given: {given}\n")?;
    Ok(Count {
        rows,
        wrong: count.wrong.saturating_add(1),
    })
}

/// What is written of all lines.
fn compared<R: Threads + Wait + Sync>(
    rt: &R,
    alloc: Global,
    text: &str,
) -> std::result::Result<String, OutOfMemory> {
    let mut out = String::new(alloc);
    let mut count = Count { rows: 0, wrong: 0 };
    for line in text.lines() {
        if !line.is_empty() && !line.starts_with("# ") {
            count = follow(rt, alloc, &mut out, line, count)?;
        }
    }
    write!(out, "{} rows, {} wrong\n", count.rows, count.wrong)?;
    Ok(out)
}

/// All of standard input.
fn input(rt: &HostRuntime) -> Result<Vec<u8>> {
    let mut bytes = Vec::new(rt.alloc());
    let _count = rt.stdin().read_to_end(&mut bytes)?;
    Ok(bytes)
}

fn main(rt: HostRuntime) -> Result<ExitCode> {
    let bytes = input(&rt)?;
    let text = std::str::from_utf8(&bytes).unwrap_or("");
    match compared(&rt, rt.alloc(), text) {
        Ok(out) => {
            print!(rt; "{out}")?;
            Ok(ExitCode::SUCCESS)
        }
        Err(_) => Ok(ExitCode::from(12)),
    }
}
