//! Lines of a script with what they mean on the day of a roster, and roster lines.
use crate::readers::done;
use adx_units::OutOfMemory;
use day_rules::Ask;
use script_lines::{
    LineFault, RosterLineFault, ScriptLine, push_roster_why, push_why, read_line, read_roster,
};
use std::alloc::Global;
use std::fmt::Write;

/// Two bidders and three campaigns.
const ROSTER: &str =
    r#"{"day":"2025-03-01","bidders":[{"name":"b1"},{"name":"b2"}],"campaigns":[{"bidder":"b1","seat":"s1","cid":"c1","budget":0.01},{"bidder":"b2","seat":"s2","cid":"c1","budget":1},{"bidder":"b1","seat":"s1","cid":"c2","budget":0.5}]}"#;

/// Adds an ask: its id, its moment, and what admission says of each bid.
fn push_ask(out: &mut String, ask: &Ask) -> Result<(), OutOfMemory> {
    done(write!(out, "ask {} {}", ask.auction.as_str(), ask.now))?;
    for offer in ask.offers.as_slice() {
        done(write!(out, " {}", offer.reason))?;
    }
    Ok(())
}

/// Adds what a line means, or why it is refused. Of a budget its campaign, its number and the units are added.
fn push_line(out: &mut String, read: &Result<ScriptLine, LineFault>) -> Result<(), OutOfMemory> {
    match read {
        Ok(ScriptLine::Ask { ask }) => push_ask(out, ask),
        Ok(ScriptLine::Notice { notice }) => done(write!(
            out,
            "{:?} {} {}",
            notice.kind,
            notice.auction.as_str(),
            notice.award
        )),
        Ok(ScriptLine::Tick { now }) => done(write!(out, "tick {now}")),
        Ok(ScriptLine::Budget { change }) => done(write!(
            out,
            "budget {} {} {}",
            change.campaign, change.number, change.budget.0
        )),
        Err(LineFault::Refused { why }) => push_why(out, why),
        Err(LineFault::OutOfMemory) => Err(OutOfMemory),
    }
}

/// Adds what a line means on the day of the roster.
pub(crate) fn push_line_said(
    out: &mut String,
    alloc: Global,
    line: &[u8],
) -> Result<(), OutOfMemory> {
    match read_roster(alloc, ROSTER.as_bytes()) {
        Ok(roster) => push_line(out, &read_line(alloc, &roster, line)),
        Err(_) => Err(OutOfMemory),
    }
}

/// Adds the day of a roster line, or why it is refused.
pub(crate) fn push_roster_said(
    out: &mut String,
    alloc: Global,
    line: &[u8],
) -> Result<(), OutOfMemory> {
    match read_roster(alloc, line) {
        Ok(roster) => Ok(out.push_str(roster.day.as_str())?),
        Err(RosterLineFault::Refused { why }) => push_roster_why(out, why),
        Err(RosterLineFault::OutOfMemory) => Err(OutOfMemory),
    }
}
