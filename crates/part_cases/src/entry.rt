//! Entries of a day's history that bytes begin with, in either format of a journal.
use crate::readers::{done, push_other};
use adx_units::OutOfMemory;
use day_entries::{copy_of, decode};
use day_rules::{Ask, Entry};
use std::alloc::Global;
use std::fmt::Write;

/// Adds what an ask has: its id, digest, moment and first award; the ids of its impressions; its offers, as Rust prints them; and
/// the place and the texts of each bid that keeps them.
fn push_ask(out: &mut String, ask: &Ask) -> Result<(), OutOfMemory> {
    let digest = std::str::from_utf8(&ask.digest).unwrap_or("?");
    done(write!(
        out,
        "ask {} {digest} {} {};",
        ask.auction.as_str(),
        ask.now,
        ask.first
    ))?;
    for imp in ask.imps.as_slice() {
        done(write!(out, " {}", imp.as_str()))?;
    }
    done(write!(out, "; {:?}", ask.offers.as_slice()))?;
    push_kept(out, ask)
}

/// Adds what each bid of an ask that keeps its texts has.
fn push_kept(out: &mut String, ask: &Ask) -> Result<(), OutOfMemory> {
    out.push_str(";")?;
    for kept in ask.kept.as_slice() {
        done(write!(
            out,
            " {}:{}|{}|{}|{}|{}|{}|{}",
            kept.bid,
            kept.seat.as_str(),
            kept.bidid.as_str(),
            kept.adid.as_str(),
            kept.nurl.as_str(),
            kept.burl.as_str(),
            kept.lurl.as_str(),
            kept.body.as_str()
        ))?;
    }
    Ok(())
}

/// Adds what an ask has; what its copy has, where that is something else.
fn push_copied(out: &mut String, alloc: Global, ask: &Ask) -> Result<(), OutOfMemory> {
    let mut copied = String::new(alloc);
    let copy = copy_of(alloc, ask)?;
    push_ask(&mut copied, &copy)?;
    push_ask(out, ask)?;
    push_other(out, copied.as_str())
}

/// Adds what an entry has.
fn push_entry(out: &mut String, alloc: Global, entry: &Entry) -> Result<(), OutOfMemory> {
    match entry {
        Entry::Ask(ask) => push_copied(out, alloc, ask),
        other => done(write!(out, "{other:?}")),
    }
}

/// Adds the entry that bytes begin with, and how many bytes it has.
pub(crate) fn push_entry_said(
    out: &mut String,
    alloc: Global,
    bytes: &[u8],
    format: u8,
) -> Result<(), OutOfMemory> {
    match decode(alloc, bytes, format)? {
        Some((entry, len)) => {
            push_entry(out, alloc, &entry)?;
            done(write!(out, ", {len} bytes"))
        }
        None => Ok(out.push_str("none")?),
    }
}
