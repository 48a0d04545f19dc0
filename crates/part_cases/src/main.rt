//! Compares what the libraries' readers say of texts with rows that say it, and writes each row that isn't as it says, and how
//! many rows there are.
//!
//! Each line of standard input is a row, `READER TEXT => SAID`; an empty line and one that begins with `# ` are none. After a
//! reader's name that begins with `\`, the text has the escapes `\n`, `\r`, `\t` and `\xNN`. The readers are in `readers`, by
//! their names. What a fault is called is its variant, as Rust prints it.
#![tactic(auto)]

mod answer;
mod documents;
mod entry;
mod json;
mod line;
mod macros;
mod messages;
mod money;
mod offer;
mod readers;
mod request;
mod row;
mod text;
mod words;
mod world;

use crate::readers::{done, push_said};
use crate::row::Row;
use adx_units::OutOfMemory;
use anyhow::Result;
use std::alloc::Global;
use std::fmt::Write;
use std::io::Read;
use std::process::ExitCode;

/// How many rows there are, and how many of them aren't as they say.
#[derive(Clone, Copy)]
struct Count {
    rows: u64,
    wrong: u64,
}

/// Adds a line's row where it isn't as it says, and counts it.
fn follow(
    alloc: Global,
    out: &mut String,
    line: &str,
    count: Count,
) -> std::result::Result<Count, OutOfMemory> {
    let row = Row::of(alloc, line)?;
    let mut given = String::new(alloc);
    push_said(&mut given, alloc, row.reader, row.text.as_slice())?;
    let rows = count.rows.saturating_add(1);
    if given.as_str() == row.said {
        return Ok(Count { rows, ..count });
    }
    done(write!(out, "{line}\n    given: {given}\n"))?;
    Ok(Count {
        rows,
        wrong: count.wrong.saturating_add(1),
    })
}

/// What is written of all lines.
fn compared(alloc: Global, text: &str) -> std::result::Result<String, OutOfMemory> {
    let mut out = String::new(alloc);
    let mut count = Count { rows: 0, wrong: 0 };
    for line in text.lines() {
        if !line.is_empty() && !line.starts_with("# ") {
            count = follow(alloc, &mut out, line, count)?;
        }
    }
    done(write!(out, "{} rows, {} wrong\n", count.rows, count.wrong))?;
    Ok(out)
}

/// All of standard input.
fn input(rt: &HostRuntime) -> Result<Vec<u8>> {
    let mut bytes = Vec::new(rt.alloc());
    let _count = rt.stdin().read_to_end(&mut bytes)?;
    Ok(bytes)
}

fn main(rt: HostRuntime) -> Result<ExitCode> {
    let bytes = input(&rt)?;
    match compared(rt.alloc(), std::str::from_utf8(&bytes).unwrap_or("")) {
        Ok(out) => {
            print!(rt; "{out}")?;
            Ok(ExitCode::SUCCESS)
        }
        Err(_) => Ok(ExitCode::from(12)),
    }
}
