//! The objects of a run: words, connections, links and texts, by the letters of a row.
ghost use Rattle.std.specs.Prelude.{All, IfOk};
ghost use Rattle.adx_links.specs.Pairs.{IsNew};
ghost use Rattle.adx_links.specs.MemoryAcceptors.{pair_told};

use adx_io::{MemorySink, MemorySource};
use adx_links::{MemoryLink, Planned};
use adx_units::{OutOfMemory, Text};
use std::alloc::Global;

/// A connection in memory.
pub(crate) type Pair = (MemorySource, MemorySink);

/// The roster's line, with one bidder; `;` stands for LF.
pub(crate) const ROSTER: &str =
    r#"{"day":"2025-03-01","bidders":[{"name":"b1"}],"campaigns":[{"bidder":"b1","seat":"s1","cid":"c1","budget":0.01}]};"#;

/// What a bidder answers that bids, whose bill is told to `@`; `~` stands for CR LF.
pub(crate) const BIDS: &str =
    r#"HTTP/1.1 200 OK~~{"id":"a1","seatbid":[{"seat":"s1","bid":[{"id":"x","impid":"1","price":2.5,"cid":"c1","burl":"@"}]}]}"#;

/// What a bidder answers with two bids, of which the second loses to the first, and that has each notice told to `@`.
pub(crate) const TOLD_OF_ALL: &str =
    r#"HTTP/1.1 200 OK~~{"id":"a1","seatbid":[{"seat":"s1","bid":[{"id":"x","impid":"1","price":2.5,"cid":"c1","nurl":"@","burl":"@","lurl":"@"},{"id":"y","impid":"1","price":1,"cid":"c1","lurl":"@"}]}]}"#;

/// Messages, a letter before each: a request for bids, a bill and a win of its award, the books, half a head, and what is no
/// head.
const MESSAGES: &str =
    r#"aPOST /openrtb HTTP/1.1~Host: x~Content-Length: 30~~{"id":"a1","imp":[{"id":"1"}]}
pGET /notice/bill?auction=a1&bid=0 HTTP/1.1~Host: x~~
wGET /notice/win?auction=a1&bid=0 HTTP/1.1~Host: x~~
kGET /books HTTP/1.1~Host: x~~
hGET /books HTTP/1.1~Ho
gNO SUCH THING~~"#;

/// The words of a text, which are between bars.
pub(crate) fn words_of(alloc: Global, text: &str) -> Result<Vec<Text>, OutOfMemory> {
    let mut words = Vec::new(alloc);
    for word in text.split('|') {
        words.push(Text::of(alloc, word)?)?;
    }
    Ok(words)
}

/// Adds a text, in which `~` stands for CR LF and `;` for LF.
fn add(bytes: &mut Vec<u8>, text: &str) -> Result<(), OutOfMemory> {
    for byte in text.as_bytes() {
        match *byte {
            b'~' => bytes.extend_from_slice(b"\r\n")?,
            b';' => bytes.push(b'\n')?,
            other => bytes.push(other)?,
        }
    }
    Ok(())
}

/// The bytes of a text.
pub(crate) fn bytes_of(alloc: Global, text: &str) -> Result<Vec<u8>, OutOfMemory> {
    let mut bytes = Vec::new(alloc);
    add(&mut bytes, text)?;
    Ok(bytes)
}

/// Adds the message of a letter, if it has one.
fn add_message(bytes: &mut Vec<u8>, letter: char) -> Result<(), OutOfMemory> {
    for line in MESSAGES.lines() {
        match line.strip_prefix(letter) {
            Some(text) => return add(bytes, text),
            None => {}
        }
    }
    Ok(())
}

/// No call.
const NONE: &[u64] = &[];

/// The first call.
const FIRST: &[u64] = &[0];

/// Which calls fail.
fn first_where(fails: bool) -> &'static [u64] {
    if fails { FIRST } else { NONE }
}

/// What a connection brings: the messages of letters, or the text after `=`.
fn brought(alloc: Global, group: &str) -> Result<Vec<u8>, OutOfMemory> {
    let mut bytes = Vec::new(alloc);
    match group.split_once('=') {
        Some((_, text)) => add(&mut bytes, text)?,
        None => {
            for letter in group.chars() {
                add_message(&mut bytes, letter)?;
            }
        }
    }
    Ok(bytes)
}

/// A new connection that brings what a group says. Where that begins with `r` the source fails at its first call, and with `x`
/// the sink.
pub(crate) fn pair_of(alloc: Global, group: &str) -> Result<Pair, OutOfMemory>
    ensures { IfOk result (λ p. IsNew (pair_told p)) }
{
    let read_fails = first_where(group.starts_with('r'));
    let write_fails = first_where(group.starts_with('x'));
    let bytes = brought(alloc, group)?;
    Ok((
        MemorySource::new(alloc, &bytes, 0, read_fails)?,
        MemorySink::new(alloc, 0, write_fails)?,
    ))
}

/// A new connection for each group; the groups end with bars.
pub(crate) fn pairs_of(alloc: Global, groups: &str) -> Result<Vec<Pair>, OutOfMemory>
    ensures { IfOk result (λ pairs. All (λ p. IsNew (pair_told p)) pairs.items) }
{
    let mut pairs = Vec::new(alloc);
    for letters in groups.split_terminator('|') {
        let pair = pair_of(alloc, letters)?;
        pairs.push(pair)?;
    }
    Ok(pairs)
}

/// A text, in which `~` stands for CR LF, and `@` for a URL.
fn text_of(alloc: Global, text: &str, url: &str) -> Result<Text, OutOfMemory> {
    let mut out = String::new(alloc);
    for letter in text.chars() {
        match letter {
            '~' => out.push_str("\r\n")?,
            '@' => out.push_str(url)?,
            other => out.push(other)?,
        }
    }
    Ok(Text::from(out))
}

/// What a bidder answers that bids, and the URL in it.
#[derive(Clone, Copy)]
pub(crate) struct Bids<'a> {
    pub(crate) text: &'a str,
    pub(crate) url: &'a str,
}

/// What a start of a link answers: `b` bids, `5` answers 500, `h` half a head, and `d` and `e` 200 up to the end; other letters
/// answer nothing.
fn answer_of<'a>(letter: char, bids: Bids<'a>) -> &'a str {
    match letter {
        'b' => bids.text,
        '5' => "HTTP/1.1 500 Internal Server Error~Content-Length: 0~~",
        'h' => "HTTP/1.1 200 OK~Content-Le",
        'd' | 'e' => "HTTP/1.1 200 OK~~",
        _ => "",
    }
}

/// Which take of a start fails: the first of `t`, and the second of `e`.
fn failing_take(letter: char) -> Option<u64> {
    match letter {
        't' => Some(0),
        'e' => Some(1),
        _ => None,
    }
}

/// What a start of a link does: `s` fails, `p` fails at its first put, and others answer.
fn planned(alloc: Global, letter: char, bids: Bids<'_>) -> Result<Planned, OutOfMemory> {
    Ok(Planned {
        bytes: text_of(alloc, answer_of(letter, bids), bids.url)?,
        start_fails: letter == 's',
        put_fails: letter == 'p',
        take_fails: failing_take(letter),
    })
}

/// What a start does that answers a text: it fails at its start (`s`), at its first put (`p`) or at the take of that number.
fn answering(alloc: Global, fails: &str, text: &str) -> Result<Planned, OutOfMemory> {
    Ok(Planned {
        bytes: text_of(alloc, text, "")?,
        start_fails: fails == "s",
        put_fails: fails == "p",
        take_fails: fails.parse::<u64>().ok(),
    })
}

/// A link whose starts do what these letters say, or whose one start answers the text after `=` and fails as the letter before it
/// says. Then it answers that there is no content.
pub(crate) fn link_of(
    alloc: Global,
    letters: &str,
    bids: Bids<'_>,
) -> Result<MemoryLink, OutOfMemory> {
    let mut plan = Vec::new(alloc);
    match letters.split_once('=') {
        Some((fails, text)) => plan.push(answering(alloc, fails, text)?)?,
        None => {
            for letter in letters.chars() {
                plan.push(planned(alloc, letter, bids)?)?;
            }
        }
    }
    MemoryLink::new(alloc, &plan)
}

/// Links, one for each letter, whose first start does what the letter says.
fn links_of(alloc: Global, letters: &str, bids: Bids<'_>) -> Result<Vec<MemoryLink>, OutOfMemory> {
    let mut links = Vec::new(alloc);
    for letter in letters.chars() {
        let plan = [planned(alloc, letter, bids)?];
        links.push(MemoryLink::new(alloc, &plan)?)?;
    }
    Ok(links)
}

/// A list of links for each group of letters; the groups end with bars.
pub(crate) fn lists_of(
    alloc: Global,
    groups: &str,
    bids: Bids<'_>,
) -> Result<Vec<Vec<MemoryLink>>, OutOfMemory> {
    let mut lists = Vec::new(alloc);
    for letters in groups.split_terminator('|') {
        lists.push(links_of(alloc, letters, bids)?)?;
    }
    Ok(lists)
}
