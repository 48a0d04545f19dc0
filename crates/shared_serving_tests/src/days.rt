//! A day with two bidders: its roster, its desks, and the messages of its connections.
ghost use Rattle.std.specs.Prelude.{◌≡◌, IfOk};
ghost use Rattle.adx_desk.specs.Rosters.{desk_terms};

use adx_desk::Desk;
use adx_json::read;
use adx_units::OutOfMemory;
use day_journal::MemoryDisk;
use deal_floor::Roster;
use std::alloc::Global;

/// A day with two bidders and one campaign.
const ROSTER: &str =
    r#"{"day":"2025-03-01","bidders":[{"name":"b1"},{"name":"b2"}],"campaigns":[{"bidder":"b1","seat":"s1","cid":"c1","budget":0.01}]}"#;

/// The roster of the day.
pub(crate) fn roster_of(alloc: Global) -> Result<Roster, OutOfMemory> {
    let Ok(tree) = read(alloc, ROSTER.as_bytes()) else {
        return Err(OutOfMemory);
    };
    match Roster::of(alloc, &tree) {
        Ok(roster) => Ok(roster),
        Err(_) => Err(OutOfMemory),
    }
}

/// The desk of the roster's day on a disk in memory, whose calls with these numbers fail.
pub(crate) fn desk_of(
    alloc: Global,
    roster: &Roster,
    fails: &[u64],
) -> Result<Desk<MemoryDisk>, OutOfMemory>
    ensures { IfOk result (λ d. d.desk.terms ≡ desk_terms roster.entry.now) }
{
    let disk = MemoryDisk::new(alloc, b"", fails, None)?;
    match Desk::open(alloc, disk, roster) {
        Ok(desk) => Ok(desk),
        Err(_) => Err(OutOfMemory),
    }
}

/// A message by its letter: requests for bids, notices, changes of a budget, and looks at the books.
fn message(letter: u8) -> &'static str {
    match letter {
        b'a' => {
            "POST /openrtb HTTP/1.1\r\nHost: x\r\nContent-Length: 41\r\n\r\n{\"id\":\"a1\",\"imp\":[{\"id\":\"1\"},{\"id\":\"2\"}]}"
        }
        b'A' => {
            "POST /openrtb HTTP/1.1\r\nHost: x\r\nContent-Length: 30\r\n\r\n{\"id\":\"a1\",\"imp\":[{\"id\":\"1\"}]}"
        }
        b'f' => {
            "POST /openrtb HTTP/1.1\r\nHost: x\r\nContent-Length: 30\r\n\r\n{\"id\":\"a2\",\"imp\":[{\"id\":\"1\"}]}"
        }
        b'b' => "GET /notice/bill?auction=a1&bid=0 HTTP/1.1\r\nHost: x\r\n\r\n",
        b'e' => "GET /notice/bill?auction=a1&bid=1 HTTP/1.1\r\nHost: x\r\n\r\n",
        b'g' => "GET /notice/win?auction=a1&bid=0 HTTP/1.1\r\nHost: x\r\n\r\n",
        b'B' => "GET /notice/loss?auction=a1&bid=0 HTTP/1.1\r\nHost: x\r\n\r\n",
        b'c' => {
            "POST /budget?seat=s1&cid=c1&change=1&budget=0.02 HTTP/1.1\r\nHost: x\r\nContent-Length: 0\r\n\r\n"
        }
        b'C' => {
            "POST /budget?seat=s1&cid=c1&change=1&budget=0.03 HTTP/1.1\r\nHost: x\r\nContent-Length: 0\r\n\r\n"
        }
        _ => "GET /books HTTP/1.1\r\nHost: x\r\n\r\n",
    }
}

/// The messages of letters, one after another.
pub(crate) fn messages_of(alloc: Global, letters: &[u8]) -> Result<String, OutOfMemory> {
    let mut out = String::new(alloc);
    for letter in letters {
        out.push_str(message(*letter))?;
    }
    Ok(out)
}
