//! What the links of a run share, and what comes of a call.

use crate::reports::Reports;
use bounded_network::{Hosts, Names, OpenCalls, Reach};
use deal_floor::Roster;
use std::fmt;
use std::net::TcpStream;

/// What came of a call of a host.
#[derive(Clone, Copy, Debug, PartialEq, Eq)]
pub(crate) enum Outcome {
    /// Nothing is known.
    Unknown,
    /// It answered, and its answer serves.
    Well,
    /// No address of it took the call.
    Unreached,
    /// It took the call, and ended it before an answer was whole.
    HungUp,
    /// It took the call, and didn't answer in time.
    Late,
    /// It answered with a status that doesn't serve.
    Status(u16),
    /// Its answer is no response of HTTP/1.1.
    NoHttp,
    /// Its answer is no JSON text.
    NoJson,
    /// Its answer is no answer to the request.
    NoAnswer,
    /// Its answer has bids, and none of a seat that the roster gives it.
    NoSeat,
    /// Its addresses aren't called: they are this machine's or its link's, and no bidder of the roster has such a one.
    Beyond,
    /// It isn't called, since it failed lately.
    Rests,
}

impl Outcome {
    /// A number for it: all have different ones.
    pub(crate) fn code(self) -> u64 {
        match self {
            Outcome::Unknown => 0,
            Outcome::Well => 1,
            Outcome::Unreached => 2,
            Outcome::HungUp => 3,
            Outcome::Late => 4,
            Outcome::NoJson => 5,
            Outcome::NoAnswer => 6,
            Outcome::NoSeat => 7,
            Outcome::Beyond => 8,
            Outcome::Rests => 9,
            Outcome::NoHttp => 10,
            Outcome::Status(status) => 16 + u64::from(status),
        }
    }

    /// Whether it is the number of an outcome that is known only once an answer was read.
    pub(crate) fn is_of_a_body(code: u64) -> bool {
        code == Outcome::NoHttp.code()
            || code == Outcome::NoJson.code()
            || code == Outcome::NoAnswer.code()
            || code == Outcome::NoSeat.code()
    }
}

impl fmt::Display for Outcome {
    fn fmt<W: fmt::Write>(&self, f: &mut fmt::Formatter<W>) -> fmt::Result {
        match self {
            Outcome::Unknown => f.write_str("wasn't called yet"),
            Outcome::Well => f.write_str("answers"),
            Outcome::Unreached => f.write_str("wasn't reached"),
            Outcome::HungUp => f.write_str("hung up before its answer was whole"),
            Outcome::Late => f.write_str("didn't answer in time"),
            Outcome::Status(status) => write!(f, "answered with status {status}"),
            Outcome::NoHttp => f.write_str("its answer isn't HTTP/1.1, or is too long"),
            Outcome::NoJson => f.write_str("its answer isn't JSON"),
            Outcome::NoAnswer => f.write_str("its answer isn't one to the request"),
            Outcome::NoSeat => f.write_str("its answer has no seat of the roster"),
            Outcome::Beyond => f.write_str(
                "isn't called: its address is this machine's or its link's, or the exchange's own",
            ),
            Outcome::Rests => f.write_str("isn't called for a while"),
        }
    }
}

/// What the links of a run share: the names that were looked up and what is connected, which all calls of the run share, the hosts
/// that failed lately, which addresses are called, and where it is said what failed.
#[derive(Drop)]
pub(crate) struct Calls<'a> {
    pub(crate) names: &'a Names,
    pub(crate) open: &'a OpenCalls<TcpStream>,
    pub(crate) hosts: Hosts,
    pub(crate) reach: Reach,
    pub(crate) reports: &'a Reports<'a>,
}

impl<'a> Calls<'a> {
    /// Nothing was called yet, and every address may be.
    pub(crate) fn new(
        reports: &'a Reports<'a>,
        names: &'a Names,
        open: &'a OpenCalls<TcpStream>,
    ) -> Calls<'a> {
        Calls {
            names,
            open,
            hosts: Hosts::new(reports.rt().alloc()),
            reach: Reach::everywhere(),
            reports,
        }
    }

    /// Calls no address of this machine or of its link, unless a host of the roster has such a one. The names of the roster's
    /// hosts are looked up for it.
    pub(crate) fn keep_outside(&mut self, roster: &Roster) {
        let rt = self.reports.rt();
        let mut reach = Reach::outside();
        for place in roster.bidders.as_slice() {
            reach = self
                .names
                .with_host(rt, place.host.as_str(), place.port, reach);
        }
        self.reach = reach;
    }

    /// Doesn't call a port of this machine.
    pub(crate) fn leave_out(&mut self, port: u16) {
        self.reach = self.reach.without_port(port);
    }
}
