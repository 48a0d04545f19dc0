//! Rows: what a run is over, in fields, and what is said of it.
use crate::objects::{BIDS, Bids, ROSTER, TOLD_OF_ALL};
use crate::served::{Row, file_of, met_on, push_met, push_seen, push_shown, served_on};
use adx_units::OutOfMemory;
use std::alloc::Global;
use std::marker::Sync;
use std::sync::Wait;
use std::thread::Threads;

/// Words that rows share: `one` worker and `two`.
fn words_of(field: &str) -> &str {
    match field {
        "one" => "serve|--roster|r|--journal|j|--port|0|--workers|1",
        "two" => "serve|--workers=2|--port=0|--journal=j|--roster=r",
        other => other,
    }
}

/// The document of a field: `$` is the roster's line, and `-` nothing.
fn document_of(field: &str) -> &str {
    match field {
        "$" => ROSTER,
        "-" => "",
        other => other,
    }
}

/// The text of a field: `-` is nothing.
fn text_of(field: &str) -> &str {
    if field == "-" { "" } else { field }
}

/// The call that a field names, if it names one.
fn calls_of(alloc: Global, field: &str) -> Result<Vec<u64>, OutOfMemory> {
    let mut calls = Vec::new(alloc);
    match field.parse::<u64>() {
        Ok(call) => calls.push(call)?,
        Err(_) => {}
    }
    Ok(calls)
}

/// The field at the front of a row, and those after it.
fn next_of(fields: &str) -> (&str, &str) {
    fields.split_once(" / ").unwrap_or((fields, ""))
}

/// What a bidder answers that bids, where its row says no other.
const USUAL: Bids<'static> = Bids {
    text: BIDS,
    url: "http://n/b",
};

/// The file that messages leave, none of whose posts was taken.
fn left_file<R: Threads + Wait + Sync>(
    rt: &R,
    alloc: Global,
    connections: &str,
    bids: Bids<'_>,
) -> Result<Vec<u8>, OutOfMemory> {
    let row = Row {
        words: words_of("one"),
        document: ROSTER,
        connections,
        lists: "b|",
        bids,
        plan: "ssssssss",
        acceptor_fails: &[],
        disk_fails: &[],
    };
    let back = served_on(rt, alloc, row, b"")?;
    file_of(alloc, back.disk)
}

/// The file of a field: `sold` is that of an ask and its bill, whose URL may follow, and `kept` that of the messages of letters,
/// whose notices all have the URL that follows them; `-` is none, and others are its bytes.
fn file_in<R: Threads + Wait + Sync>(
    rt: &R,
    alloc: Global,
    field: &str,
) -> Result<Vec<u8>, OutOfMemory> {
    let (word, rest) = field.split_once(' ').unwrap_or((field, USUAL.url));
    match word {
        "sold" => left_file(rt, alloc, "ap|", Bids { url: rest, ..USUAL }),
        "kept" => {
            let (letters, url) = rest.split_once(' ').unwrap_or((rest, ""));
            let bids = Bids {
                text: TOLD_OF_ALL,
                url,
            };
            left_file(rt, alloc, letters, bids)
        }
        _ => Ok(Vec::from_slice(alloc, text_of(field).as_bytes())?),
    }
}

/// What is said of the run of a row: words / document / connections / lists of links / plan of the posts / the acceptor's call
/// that fails / the disk's / file. Where `show ` is before the words, replies and posts are written too; where `meet ` is, two
/// connections are served of which the first is silent until the second has its reply.
pub(crate) fn said_of<R: Threads + Wait + Sync>(
    rt: &R,
    alloc: Global,
    fields: &str,
) -> Result<String, OutOfMemory> {
    let (words, rest) = next_of(fields);
    let shown = words.strip_prefix("show ");
    let meets = words.strip_prefix("meet ");
    let (document, rest) = next_of(rest);
    let (connections, rest) = next_of(rest);
    let (lists, rest) = next_of(rest);
    let (plan, rest) = next_of(rest);
    let (acceptor, rest) = next_of(rest);
    let (disk, file) = next_of(rest);
    let acceptor_fails = calls_of(alloc, acceptor)?;
    let disk_fails = calls_of(alloc, disk)?;
    let file = file_in(rt, alloc, file)?;
    let row = Row {
        words: words_of(shown.or(meets).unwrap_or(words)),
        document: document_of(document),
        connections: text_of(connections),
        lists: text_of(lists),
        bids: USUAL,
        plan: text_of(plan),
        acceptor_fails: acceptor_fails.as_slice(),
        disk_fails: disk_fails.as_slice(),
    };
    let mut out = String::new(alloc);
    if meets.is_some() {
        let met = met_on(rt, alloc, row, file.as_slice())?;
        push_met(&mut out, &met)?;
        return Ok(out);
    }
    let back = served_on(rt, alloc, row, file.as_slice())?;
    match shown {
        Some(_) => push_shown(&mut out, &back)?,
        None => push_seen(&mut out, &back)?,
    }
    Ok(out)
}
