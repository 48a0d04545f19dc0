//! Bidders that answer well and badly, asked at the same time and one after the other.

use adx_links::{Link, MemoryLink, Planned};
use adx_units::{Id, OutOfMemory, Text};
use deal_floor::Place;
use fan_out::{BidderAnswer, Lane, gather, gather_in_turn};
use std::alloc::Global;
use std::fmt::Write;
use std::marker::{Send, Sync};
use std::thread::Threads;

/// The id of every request.
pub(crate) const AUCTION: &str = "7979d0c7";

/// Answers, a row a line: what a bidder answers and what is told of it. `<` stands for CR LF, and `#` for the head of
/// a response with status 200 whose body goes to the end.
const ANSWERS: &str = r##" | Refused(Http(Cut))
HTTP/1.1 200 | Refused(Http(Cut))
HTTP/1.1 200 OK<Content-Length: 9<<{"id":1} | Refused(Http(Cut))
HTTP/1.1 204 No Content<< | NoBid
HTTP/1.1 200 OK<Content-Encoding: gzip<Content-Length: 2<<{} | Refused(Http(Coding))
HTTP/1.1 200 OK<Content-Length: 262145<< | Refused(Http(BodyTooLong))
HTTP/1.1 302 Found<Location: /<Content-Length: 0<< | Refused(Status(302))
HTTP/1.1 100 Continue<<HTTP/1.1 204 No Content<< | Refused(Status(100))
HTTP/1.1 500 Internal Server Error<Content-Length: 0<< | Refused(Status(500))
POST / HTTP/1.1<< | Refused(Http(BadHead))
HTTP/1.1 200 OK<Transfer-Encoding: chunked<<x<< | Refused(Http(BadChunk))
HTTP/1.1 200 OK<Transfer-Encoding: chunked<<1<{<1<}<0<< | Refused(Answer(NoId))
# | Refused(Json(Syntax { at: 0 }))
#{"id":"7979d0c7"}x | Refused(Json(Syntax { at: 17 }))
#{"id":"7979d0c7"} | NoBid
#{"id":"7979d0c7","seatbid":[{"bid":[]},{"bid":[]}]} | NoBid
#{"id":"7979d0c7","seatbid":[{"bid":[{}]}]} | Bids
#{"id":"7979d0c8"} | Refused(Answer(OtherId))
#{"id":"7979d0c7","cur":"EUR"} | Refused(Answer(OtherCurrency))
#{"id":"7979d0c7","seatbid":{}} | Refused(Answer(BadField { field: Seatbid }))
#{"id":"7979d0c7","seatbid":[{}]} | Refused(Answer(BadField { field: SeatbidBid }))
"##;

/// A text with a row's letters for the parts that rows share.
fn push_bytes(out: &mut String, row: &str) -> Result<(), OutOfMemory> {
    for letter in row.chars() {
        match letter {
            '<' => out.push_str("\r\n")?,
            '#' => out.push_str("HTTP/1.1 200 OK\r\n\r\n")?,
            other => out.push(other)?,
        }
    }
    Ok(())
}

/// What a start answers; it fails at the call that is named by its letters: `s` the start, `p` the put, a number the
/// take.
fn planned(alloc: Global, row: &str, fails: &str) -> Result<Planned, OutOfMemory> {
    let mut bytes = String::new(alloc);
    push_bytes(&mut bytes, row)?;
    Ok(Planned {
        bytes: Text::from(bytes),
        start_fails: fails == "s",
        put_fails: fails == "p",
        take_fails: fails.parse::<u64>().ok(),
    })
}

/// A name.
pub(crate) fn id_of(alloc: Global, name: &str) -> Result<Id, OutOfMemory> {
    match Id::of(alloc, name)? {
        Some(id) => Ok(id),
        None => Err(OutOfMemory),
    }
}

/// A bidder's place.
fn place(alloc: Global) -> Result<Place, OutOfMemory> {
    Ok(Place {
        name: id_of(alloc, "b")?,
        host: Text::of(alloc, "bidder.example")?,
        port: 8080,
        path: Text::of(alloc, "/bid?x=1")?,
    })
}

/// A lane to that bidder.
pub(crate) fn lane<L: Drop>(alloc: Global, link: L) -> Result<Lane<L>, OutOfMemory> {
    Lane::to(alloc, &place(alloc)?, link)
}

/// A link whose bidder answers so twice.
fn planned_link(alloc: Global, row: &str, fails: &str) -> Result<MemoryLink, OutOfMemory> {
    let plan = [planned(alloc, row, fails)?, planned(alloc, row, fails)?];
    MemoryLink::new(alloc, &plan)
}

/// Lanes whose bidders answer so twice, each with the call that fails.
pub(crate) fn planned_lanes(
    alloc: Global,
    rows: &[(&str, &str)],
) -> Result<Vec<Lane<MemoryLink>>, OutOfMemory> {
    let mut lanes = Vec::new(alloc);
    for (fails, row) in rows {
        lanes.push(lane(alloc, planned_link(alloc, row, fails)?)?)?;
    }
    Ok(lanes)
}

/// Tells of a bidder behind the others.
fn push_told(out: &mut String, answer: &BidderAnswer) -> Result<(), OutOfMemory> {
    if !out.is_empty() {
        out.push_str(", ")?;
    }
    let told = match answer {
        BidderAnswer::Bids(_) => write!(out, "Bids"),
        other => write!(out, "{other:?}"),
    };
    told.map_err(|_| OutOfMemory)
}

/// What is told of the bidders, one after the other.
fn told(alloc: Global, answers: &[BidderAnswer]) -> Result<String, OutOfMemory> {
    let mut out = String::new(alloc);
    for answer in answers {
        push_told(&mut out, answer)?;
    }
    Ok(out)
}

/// The price of the only bid of an answer, in units of 10^-6 CPM dollar; 0 where there is none.
fn price(answer: Option<&BidderAnswer>) -> u64 {
    let Some(BidderAnswer::Bids(answer)) = answer else {
        return 0;
    };
    match answer.seats.as_slice() {
        [seat] => match seat.bids.as_slice() {
            [bid] => bid.price.map_or(0, |units| units.0),
            _ => 0,
        },
        _ => 0,
    }
}

/// What bidders are asked, and what is then told of them behind a front: all answers, and the price of the first and of the
/// last.
#[derive(Clone, Copy)]
pub(crate) struct Wanted<'a> {
    pub(crate) id: &'a str,
    pub(crate) body: &'a str,
    pub(crate) front: &'a str,
    pub(crate) told: &'a str,
    pub(crate) price: u64,
}

/// An auction whose bidders are told of so, and no bid has a price.
pub(crate) const fn no_price(told: &str) -> Wanted<'_> {
    Wanted {
        id: AUCTION,
        body: "{}",
        front: "",
        told,
        price: 0,
    }
}

/// Whether the answers are the wanted ones.
fn are_told(alloc: Global, answers: &[BidderAnswer], wanted: Wanted<'_>) -> bool {
    if price(answers.first()) != wanted.price || price(answers.last()) != wanted.price {
        return false;
    }
    match told(alloc, answers) {
        Ok(told) => told.as_str().strip_prefix(wanted.front) == Some(wanted.told),
        Err(_) => false,
    }
}

/// Whether bidders whose lanes are worked one after the other answer so.
fn tell_in_turn<L: Link>(
    alloc: Global,
    lanes: &mut Vec<Lane<L>>,
    id: &Id,
    wanted: Wanted<'_>,
) -> bool {
    match gather_in_turn(alloc, lanes, wanted.body.as_bytes(), id) {
        Ok(answers) => are_told(alloc, answers.as_slice(), wanted),
        Err(_) => false,
    }
}

/// Whether bidders whose lanes are worked at the same time answer so.
pub(crate) fn tell_at_once<R: Threads + Sync, L: Link + Send>(
    rt: &R,
    alloc: Global,
    lanes: &mut Vec<Lane<L>>,
    id: &Id,
    wanted: Wanted<'_>,
) -> bool {
    match gather(rt, alloc, lanes, wanted.body.as_bytes(), id) {
        Ok(answers) => are_told(alloc, answers.as_slice(), wanted),
        Err(_) => false,
    }
}

/// Whether bidders answer so whose lanes are worked one after the other, and then at the same time.
pub(crate) fn tell_twice<R: Threads + Sync>(
    rt: &R,
    alloc: Global,
    lanes: &mut Vec<Lane<MemoryLink>>,
    wanted: Wanted<'_>,
) -> [bool; 2] {
    match id_of(alloc, wanted.id) {
        Ok(id) => [
            tell_in_turn(alloc, lanes, &id, wanted),
            tell_at_once(rt, alloc, lanes, &id, wanted),
        ],
        Err(_) => [false; 2],
    }
}

/// The same of bidders that answer by rows.
fn rows_tell<R: Threads + Sync>(
    rt: &R,
    alloc: Global,
    rows: &[(&str, &str)],
    wanted: Wanted<'_>,
) -> [bool; 2] {
    match planned_lanes(alloc, rows) {
        Ok(mut lanes) => tell_twice(rt, alloc, &mut lanes, wanted),
        Err(_) => [false; 2],
    }
}

#[test]
fn each_answer(rt: HostRuntime) {
    assert_eq!(rt; ANSWERS.lines().count(), 21);
    for line in ANSWERS.lines() {
        let (row, told) = line.split_once(" | ").unwrap_or(("", ""));
        let rows = [("", "HTTP/1.1 204 No Content<<"), ("", row)];
        let wanted = Wanted {
            front: "NoBid, ",
            ..no_price(told)
        };
        assert_eq!(rt;
            rows_tell(&rt, rt.alloc(), &rows, wanted),
            [true; 2],
            "{line}"
        );
    }
}

/// Answers of many bytes: a letter that is repeated, how often, and what is told.
const LONG: [(&str, usize, &str, &str); 4] = [
    ("#", 1_048_576, "", "Refused(Http(BodyTooLong))"),
    (
        "HTTP/1.1 200 OK<X: ",
        16_384,
        "",
        "Refused(Http(HeadTooLong))",
    ),
    ("#", 262_144, "", "Refused(Json(Syntax { at: 262144 }))"),
    ("#", 262_145, "", "Refused(Http(BodyTooLong))"),
];

/// An answer of many blanks.
fn long_row(alloc: Global, front: &str, count: usize, behind: &str) -> Result<String, OutOfMemory> {
    let mut row = String::from_str(alloc, front)?;
    for _ in 0..count {
        row.push(' ')?;
    }
    row.push_str(behind)?;
    Ok(row)
}

/// Whether a bidder that answers by a row is told of so.
fn row_tells<R: Threads + Sync>(
    rt: &R,
    alloc: Global,
    row: Result<String, OutOfMemory>,
    told: &str,
) -> [bool; 2] {
    match row {
        Ok(row) => rows_tell(rt, alloc, &[("", row.as_str())], no_price(told)),
        Err(_) => [false; 2],
    }
}

#[test]
fn long_answers(rt: HostRuntime) {
    for (front, count, behind, told) in LONG {
        let row = long_row(rt.alloc(), front, count, behind);
        assert_eq!(rt; row_tells(&rt, rt.alloc(), row, told), [true; 2], "{told}");
    }
}

/// An answer with so many bids.
fn many_bids(alloc: Global, count: usize) -> Result<String, OutOfMemory> {
    let mut row = String::from_str(alloc, "#{\"id\":\"7979d0c7\",\"seatbid\":[{\"bid\":[{}")?;
    for _ in 1..count {
        row.push_str(",{}")?;
    }
    row.push_str("]}]}")?;
    Ok(row)
}

/// Numbers of bids, and what is told.
const COUNTS: [(usize, &str); 3] = [
    (1, "Bids"),
    (64, "Bids"),
    (65, "Refused(Answer(TooManyBids))"),
];

#[test]
fn bids_up_to_the_most(rt: HostRuntime) {
    for (count, told) in COUNTS {
        let row = many_bids(rt.alloc(), count);
        assert_eq!(rt; row_tells(&rt, rt.alloc(), row, told), [true; 2], "{count}");
    }
}
