//! Bidders that are watched: it is said when what comes of their calls changes.

use crate::calls::{Calls, Outcome};
use crate::reports::{Kind, Reports};
use bounded_network::Change;
use deal_floor::{Place, Roster};
use std::fmt;
use std::sync::atomic::{AtomicU64, Ordering};

/// After how many milliseconds an answer of a bidder is read whole again, to see whether it serves.
const READ_EVERY: u64 = 1_000;

/// A bidder, as the links to it of all workers see it.
#[derive(Drop)]
pub(crate) struct Bidder<'a> {
    roster: &'a Roster,
    place: &'a Place,
    /// Its place in the roster, from 0.
    number: u32,
    /// Why it can't be asked, where that is so.
    unaskable: Option<Unaskable>,
    /// The number of the last outcome that was said, or would have been.
    last: AtomicU64,
    /// From when on an answer is read whole again, in milliseconds.
    next: AtomicU64,
}

/// Why a bidder can't be asked.
#[derive(Clone, Copy, Debug, PartialEq, Eq)]
enum Unaskable {
    /// Its path makes more than one line of a request.
    Path,
    /// Its host makes no value of a field Host.
    Host,
}

impl fmt::Display for Unaskable {
    fn fmt<W: fmt::Write>(&self, f: &mut fmt::Formatter<W>) -> fmt::Result {
        match self {
            Unaskable::Path => f.write_str("its path has a space or a control character"),
            Unaskable::Host => f.write_str(
                "its host has a space, a control character, or a colon outside of brackets ([::1])",
            ),
        }
    }
}

/// Whether a text is a part of one line of a request: it has no space and no control character (RFC 9112, 3).
fn is_in_a_line(text: &str) -> bool {
    text.bytes().all(|byte| byte > b' ' && byte != 127)
}

/// Whether a host is one of a URL: an IPv6 address is in brackets (RFC 3986, 3.2.2).
fn is_a_host(host: &str) -> bool {
    is_in_a_line(host) && (host.starts_with('[') || !host.contains(':'))
}

/// Why a bidder at this place can't be asked.
fn unaskable_at(place: &Place) -> Option<Unaskable> {
    if !is_in_a_line(place.path.as_str()) {
        Some(Unaskable::Path)
    } else if !is_a_host(place.host.as_str()) {
        Some(Unaskable::Host)
    } else {
        None
    }
}

impl<'a> Bidder<'a> {
    /// A bidder that wasn't called yet.
    pub(crate) fn new(roster: &'a Roster, place: &'a Place, number: u32) -> Bidder<'a> {
        Bidder {
            roster,
            place,
            number,
            unaskable: unaskable_at(place),
            last: AtomicU64::new(Outcome::Unknown.code()),
            next: AtomicU64::new(0),
        }
    }

    /// Whether it may be asked.
    pub(crate) fn is_askable(&self) -> bool {
        self.unaskable.is_none()
    }

    /// Whether a seat is one by which the roster lets it buy.
    pub(crate) fn has_seat(&self, seat: &str) -> bool {
        self.roster.campaigns.as_slice().iter().any(|campaign| campaign.bidder == self.number
            && campaign.seat.as_str() == seat)
    }

    /// Whether this call's answer is read whole.
    pub(crate) fn is_read(&self, now: u64) -> bool {
        let next = self.next.load(Ordering::SeqCst);
        if now < next {
            return false;
        }
        self.next
            .compare_exchange(
                next,
                now.saturating_add(READ_EVERY),
                Ordering::SeqCst,
                Ordering::SeqCst,
            )
            .is_ok()
    }

    /// Says that a bidder is never asked, where that is so.
    pub(crate) fn say_unaskable(&self, reports: &Reports<'_>) {
        if let Some(why) = self.unaskable {
            let name = self.place.name.as_str();
            let _ = eprintln!(reports; "adx: bidder {name} isn't asked: {why}");
        }
    }

    /// What came of a call: it is said where it is another outcome than that of the call before. `whole`: the answer was read.
    pub(crate) fn note(&self, reports: &Reports<'_>, outcome: Outcome, whole: bool) {
        let code = outcome.code();
        let last = self.last.load(Ordering::SeqCst);
        if last == code || (!whole && outcome == Outcome::Well && Outcome::is_of_a_body(last)) {
            return;
        }
        if self.last.swap(code, Ordering::SeqCst) == code
            || last == Outcome::Unknown.code() && outcome == Outcome::Well
        {
            return;
        }
        let name = self.place.name.as_str();
        let (host, port) = (self.place.host.as_str(), self.place.port);
        reports.say(
            Kind::Bidder,
            "changes of bidders",
            format_args!("bidder {name} ({host}:{port}) {outcome}"),
        );
    }

    /// A call of it failed.
    pub(crate) fn fail(&self, calls: &Calls<'_>, outcome: Outcome, now: u64) {
        let rests = self.last.load(Ordering::SeqCst) == Outcome::Rests.code();
        if !rests {
            self.note(calls.reports, outcome, false);
        }
        if calls
            .hosts
            .failed(self.place.host.as_str(), self.place.port, now)
            == Change::Cold
        {
            self.note(calls.reports, Outcome::Rests, false);
        }
    }

    /// A call of it didn't fail.
    pub(crate) fn answer(&self, calls: &Calls<'_>) {
        let _ = calls
            .hosts
            .answered(self.place.host.as_str(), self.place.port);
    }
}
