//! What came of a run, as text.
use crate::runs::{Ran, day_on};
use crate::step::{Kind, word_of};
use adx_units::OutOfMemory;
use day_journal::MemoryDisk;
use std::alloc::Global;
use std::fmt::Write;

/// More writes than a disk gets without a sync between them.
const ALL: [bool; 64] = [true; 64];

/// Adds a word, a number and a newline.
fn push_number(out: &mut String, word: &str, number: u64) -> Result<(), OutOfMemory> {
    match write!(out, "{word} {number}\n") {
        Ok(()) => Ok(()),
        Err(_) => Err(OutOfMemory),
    }
}

/// Adds a line after its sign.
pub(crate) fn push_line(out: &mut String, sign: &str, line: &str) -> Result<(), OutOfMemory> {
    out.push_str(sign)?;
    out.push_str(" ")?;
    out.push_str(line)?;
    out.push_str("\n")?;
    Ok(())
}

/// Adds a line of an output, which ends in LF or in CR LF.
fn push_whole(out: &mut String, line: &str) -> Result<(), OutOfMemory> {
    match line.strip_suffix('\r') {
        Some(text) => push_line(out, "<~", text),
        None => push_line(out, "<", line),
    }
}

/// Adds the lines of an output that all end in LF but for the last, which ended in one.
fn push_all(out: &mut String, lines: &str) -> Result<(), OutOfMemory> {
    for line in lines.split('\n') {
        push_whole(out, line)?;
    }
    Ok(())
}

/// Adds what an output has after its last LF.
fn push_rest(out: &mut String, rest: &str) -> Result<(), OutOfMemory> {
    if rest.is_empty() {
        return Ok(());
    }
    push_line(out, "<|", rest)
}

/// Adds an output.
fn push_output(out: &mut String, text: &str) -> Result<(), OutOfMemory> {
    match text.rsplit_once('\n') {
        Some((lines, rest)) => {
            push_all(out, lines)?;
            push_rest(out, rest)
        }
        None => push_rest(out, text),
    }
}

/// The bytes as a text; nothing where they are none.
fn text_of(bytes: &[u8]) -> &str {
    std::str::from_utf8(bytes).unwrap_or("")
}

/// Adds the last line that a day of the roster alone writes on a disk.
fn push_kept(
    out: &mut String,
    alloc: Global,
    word: &str,
    roster: &str,
    disk: &mut MemoryDisk,
) -> Result<(), OutOfMemory> {
    let sink = day_on(alloc, roster, disk)?;
    push_line(
        out,
        word,
        text_of(sink.taken()).lines().last().unwrap_or(""),
    )
}

/// Adds what two images of a disk keep: without the writes that weren't synced, and with them.
fn push_images(
    out: &mut String,
    alloc: Global,
    roster: &str,
    disk: &MemoryDisk,
) -> Result<(), OutOfMemory> {
    let mut none = disk.image(alloc, &[], 0)?;
    push_kept(out, alloc, "none", roster, &mut none)?;
    let mut all = disk.image(alloc, &ALL, 0)?;
    push_kept(out, alloc, "all", roster, &mut all)
}

/// What came of a run; of its images too, where there is a roster to look at them by.
pub(crate) fn outcome(
    alloc: Global,
    ran: &Ran,
    roster: Option<&str>,
) -> Result<String, OutOfMemory> {
    let mut out = String::new(alloc);
    push_number(&mut out, "=", u64::from(ran.status))?;
    push_output(&mut out, text_of(ran.sink.taken()))?;
    match roster {
        Some(line) => push_images(&mut out, alloc, line, &ran.disk)?,
        None => {}
    }
    Ok(out)
}

/// Adds the line that a run in turn begins with: of `size`, how many bytes go at a call.
pub(crate) fn push_turn(out: &mut String, kind: Kind, call: u64) -> Result<(), OutOfMemory> {
    out.push_str("- ")?;
    let shown = if kind == Kind::Size {
        call.saturating_add(1)
    } else {
        call
    };
    push_number(out, word_of(kind), shown)
}
