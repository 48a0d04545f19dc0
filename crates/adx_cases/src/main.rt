//! Runs the program's own call, `adx`, over a source, a sink, a disk and a keeper in memory whose calls fail as cases say, and
//! writes what came of each run.
//!
//! Standard input has the cases, in lines: `== NAME` begins one, with a disk that has nothing and a keeper that has no day. `$
//! WORDS` begins a run of it; the lines after that say what the run is over. Each further run of a case is over the disk and
//! the keeper as the one before left them.
//!
//! | Line | Meaning |
//! |---|---|
//! | `> LINE`, `>~ LINE`, `>\| TEXT` | bytes of the source: a line that ends in LF, one that ends in CR LF, and a text alone |
//! | `file DIGITS` | the disk's file, in hexadecimal digits |
//! | `gives N`, `takes N` | the source gives, or the sink takes, at most so many bytes at a call |
//! | `disk N`, `stop N`, `source N`, `sink N`, `keeper N` | the call with this number fails; of `stop`, all calls of the disk from it on |
//! | `each WHAT N` | in place of one run, one for each number below N of a call of WHAT that fails too, all over the same objects; of `size`, one for each number of bytes from 1 to N that source and sink move at a call |
//! | `images` | what two images of the disk keep is written: without the writes that weren't synced, and with them |
//!
//! Of a run the status is written (`=`), what the sink took (`<`, `<~`, `<\|`), and of an image the last line that a day of the
//! first input line of the case alone writes on it. Of runs in turn one that came out as the one before is written `as before`.
#![tactic(auto)]

mod outcome;
mod playing;
mod runs;
mod step;

use crate::playing::Playing;
use adx_units::OutOfMemory;
use anyhow::Result;
use std::alloc::Global;
use std::io::Read;
use std::process::ExitCode;

/// What comes of all cases.
fn outcomes(alloc: Global, text: &str) -> std::result::Result<String, OutOfMemory> {
    let mut playing = Playing::new(alloc)?;
    for line in text.lines() {
        playing.follow(alloc, line)?;
    }
    playing.finish(alloc)?;
    Ok(playing.written())
}

/// All of standard input.
fn input(rt: &HostRuntime) -> Result<Vec<u8>> {
    let mut bytes = Vec::new(rt.alloc());
    let _count = rt.stdin().read_to_end(&mut bytes)?;
    Ok(bytes)
}

fn main(rt: HostRuntime) -> Result<ExitCode> {
    let bytes = input(&rt)?;
    match outcomes(rt.alloc(), std::str::from_utf8(&bytes).unwrap_or("")) {
        Ok(out) => {
            print!(rt; "{out}")?;
            Ok(ExitCode::SUCCESS)
        }
        Err(_) => Ok(ExitCode::from(12)),
    }
}
