//! One run of the words over objects in memory, and what is seen of it.
ghost use Rattle.std.specs.Prelude.{◌≡◌, []};

use crate::meeting::MeetingAcceptor;
use crate::objects::{Bids, Pair, bytes_of, link_of, lists_of, pairs_of, words_of};
use adx_commands::{Served, adx_serve};
use adx_links::{MemoryAcceptor, MemoryLink};
use adx_units::{OutOfMemory, Text};
use day_journal::{Disk, MemoryDisk};
use exchange_messages::FixedClock;
use std::alloc::Global;
use std::fmt::Write;
use std::marker::Sync;
use std::sync::Wait;
use std::thread::Threads;

/// What a run is made of, by the letters of a row.
#[derive(Clone, Copy)]
pub(crate) struct Row<'a> {
    /// The words, between bars.
    pub(crate) words: &'a str,
    /// The document, in which `;` stands for LF.
    pub(crate) document: &'a str,
    /// The connections.
    pub(crate) connections: &'a str,
    /// The lists of links.
    pub(crate) lists: &'a str,
    /// What a bidder answers that bids.
    pub(crate) bids: Bids<'a>,
    /// What the starts of the post link do.
    pub(crate) plan: &'a str,
    /// Which calls of the acceptor fail.
    pub(crate) acceptor_fails: &'a [u64],
    /// Which calls of the disk fail.
    pub(crate) disk_fails: &'a [u64],
}

/// What a run gives back.
pub(crate) type Back = Served<MemoryAcceptor, MemoryDisk, MemoryLink>;

/// What a run over connections that meet gives back.
pub(crate) type Met = Served<MeetingAcceptor, MemoryDisk, MemoryLink>;

/// Runs words over the connections of an acceptor.
fn run<R: Threads + Wait + Sync>(
    rt: &R,
    alloc: Global,
    words: &[Text],
    document: &[u8],
    acceptor: MemoryAcceptor,
    disk: MemoryDisk,
    lists: Vec<Vec<MemoryLink>>,
    post: MemoryLink,
) -> Back
    requires none { (acceptor.out ≡ []) × (acceptor.back ≡ []) }
{
    adx_serve(
        rt,
        alloc,
        words,
        document,
        acceptor,
        disk,
        lists,
        post,
        &FixedClock::new(10),
    )
}

/// What comes of a row over a disk with this file.
pub(crate) fn served_on<R: Threads + Wait + Sync>(
    rt: &R,
    alloc: Global,
    row: Row<'_>,
    file: &[u8],
) -> Result<Back, OutOfMemory> {
    let words = words_of(alloc, row.words)?;
    let document = bytes_of(alloc, row.document)?;
    let pairs = pairs_of(alloc, row.connections)?;
    let acceptor = MemoryAcceptor::new(alloc, pairs, row.acceptor_fails)?;
    let disk = MemoryDisk::new(alloc, file, row.disk_fails, None)?;
    let lists = lists_of(alloc, row.lists, row.bids)?;
    let post = link_of(alloc, row.plan, row.bids)?;
    Ok(run(rt, alloc, &words, &document, acceptor, disk, lists, post))
}

/// Runs words over connections that meet.
fn meet<R: Threads + Wait + Sync>(
    rt: &R,
    alloc: Global,
    words: &[Text],
    document: &[u8],
    acceptor: MeetingAcceptor,
    disk: MemoryDisk,
    lists: Vec<Vec<MemoryLink>>,
    post: MemoryLink,
) -> Met {
    adx_serve(
        rt,
        alloc,
        words,
        document,
        acceptor,
        disk,
        lists,
        post,
        &FixedClock::new(10),
    )
}

/// What comes of a row over two connections of which the first is silent until the second has its reply, and a disk with this file.
pub(crate) fn met_on<R: Threads + Wait + Sync>(
    rt: &R,
    alloc: Global,
    row: Row<'_>,
    file: &[u8],
) -> Result<Met, OutOfMemory> {
    let words = words_of(alloc, row.words)?;
    let document = bytes_of(alloc, row.document)?;
    let (first, second) = row
        .connections
        .split_once('|')
        .unwrap_or((row.connections, ""));
    let brings = [Text::of(alloc, first)?, Text::of(alloc, second)?];
    let acceptor = MeetingAcceptor::new(alloc, brings)?;
    let disk = MemoryDisk::new(alloc, file, row.disk_fails, None)?;
    let lists = lists_of(alloc, row.lists, row.bids)?;
    let post = link_of(alloc, row.plan, row.bids)?;
    Ok(meet(rt, alloc, &words, &document, acceptor, disk, lists, post))
}

/// Adds what is seen of connections that met: the status, the pairs that were given back, and the statuses of the first replies of the
/// first and of the second.
pub(crate) fn push_met(out: &mut String, met: &Met) -> Result<(), OutOfMemory> {
    let written = match &met.acceptor {
        Some(acceptor) => {
            let [first, second] = acceptor.codes;
            write!(out, "{} {} {first} {second}", met.status, acceptor.back)
        }
        None => write!(out, "{} -", met.status),
    };
    match written {
        Ok(()) => Ok(()),
        Err(_) => Err(OutOfMemory),
    }
}

/// The status of a reply, by its first line; 0 where there is none.
pub(crate) fn code_of(reply: &[u8]) -> u64 {
    let mut code: u64 = 0;
    for byte in reply.iter().skip(9).take(3) {
        code = code
            .saturating_mul(10)
            .saturating_add(u64::from(byte.saturating_sub(b'0')));
    }
    code
}

/// The statuses of the first replies of pairs, one after another, three digits each.
fn codes_of(pairs: &[Pair]) -> u64 {
    let mut codes: u64 = 0;
    for pair in pairs {
        codes = codes
            .saturating_mul(1000)
            .saturating_add(code_of(pair.1.taken()));
    }
    codes
}

/// How many of the first eight starts of a link were asked something.
fn asked(link: &MemoryLink) -> usize {
    let mut count: usize = 0;
    for start in 0..8 {
        if link.asked(start).is_some_and(|bytes| !bytes.is_empty()) {
            count = count.saturating_add(1);
        }
    }
    count
}

/// The bytes of a disk's file; none where there is no disk.
pub(crate) fn file_of(alloc: Global, disk: Option<MemoryDisk>) -> Result<Vec<u8>, OutOfMemory> {
    let Some(mut disk) = disk else {
        return Ok(Vec::new(alloc));
    };
    let size = disk.size().unwrap_or(0);
    let mut file = Vec::from_elem(alloc, 0, size as usize)?;
    let _ = disk.read(0, &mut file);
    Ok(file)
}

/// Adds a number after a blank, or a dash.
fn push_count(out: &mut String, count: Option<usize>) -> Result<(), OutOfMemory> {
    let written = match count {
        Some(number) => write!(out, " {number}"),
        None => write!(out, " -"),
    };
    match written {
        Ok(()) => Ok(()),
        Err(_) => Err(OutOfMemory),
    }
}

/// Adds the status and how many pairs the acceptor got back, with the statuses of their first replies.
fn push_pairs(out: &mut String, back: &Back) -> Result<(), OutOfMemory> {
    let (pairs, codes) = match &back.acceptor {
        Some(acceptor) => (Some(acceptor.ended().len()), codes_of(acceptor.ended())),
        None => (None, 0),
    };
    match write!(out, "{}", back.status) {
        Ok(()) => {
            push_count(out, pairs)?;
            push_count(out, usize::try_from(codes).ok())
        }
        Err(_) => Err(OutOfMemory),
    }
}

/// Adds how many posts were asked of their hosts, and whether the disk wasn't given back.
fn push_rest(out: &mut String, back: &Back) -> Result<(), OutOfMemory> {
    let posts = match &back.post {
        Some(link) => Some(asked(link)),
        None => None,
    };
    push_count(out, posts)?;
    if back.disk.is_none() {
        out.push_str(" no disk")?;
    }
    Ok(())
}

/// Adds what is seen of what a run gave back: the status, the pairs that were given back, the statuses of their first replies
/// one after another, and the posts that were asked of their hosts.
pub(crate) fn push_seen(out: &mut String, back: &Back) -> Result<(), OutOfMemory> {
    push_pairs(out, back)?;
    push_rest(out, back)
}

/// Adds bytes, in which `~` stands for CR LF and `;` for LF, and a bar.
fn push_bytes(out: &mut String, bytes: &[u8]) -> Result<(), OutOfMemory> {
    let mut last = ' ';
    for letter in std::str::from_utf8(bytes).unwrap_or("?").chars() {
        match letter {
            '\r' => out.push('~')?,
            '\n' if last == '\r' => {}
            '\n' => out.push(';')?,
            other => out.push(other)?,
        }
        last = letter;
    }
    Ok(out.push('|')?)
}

/// Adds what the pairs that were given back were replied.
fn push_replies(out: &mut String, pairs: &[Pair]) -> Result<(), OutOfMemory> {
    out.push_str(" / ")?;
    for pair in pairs {
        push_bytes(out, pair.1.taken())?;
    }
    Ok(())
}

/// Adds what the first eight starts of a link were asked.
fn push_asked(out: &mut String, link: &MemoryLink) -> Result<(), OutOfMemory> {
    out.push_str(" / ")?;
    for start in 0..8 {
        if let Some(bytes) = link.asked(start) {
            push_bytes(out, bytes)?;
        }
    }
    Ok(())
}

/// Adds what is seen of what a run gave back, the replies of its pairs, and what the hosts of its posts were asked.
pub(crate) fn push_shown(out: &mut String, back: &Back) -> Result<(), OutOfMemory> {
    push_seen(out, back)?;
    if let Some(acceptor) = &back.acceptor {
        push_replies(out, acceptor.ended())?;
    }
    if let Some(link) = &back.post {
        push_asked(out, link)?;
    }
    Ok(out.push_str(".")?)
}
