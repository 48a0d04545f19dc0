//! What a line of a script means.
ghost use Rattle.std.specs.Prelude.{◌≡◌, length, IfOk};
ghost use Rattle.script_lines.specs.declared.refusal.LineFault.{LineFault};
ghost use Rattle.script_lines.specs.declared.refusal.Refusal.TheVariants.{NoCall};
ghost use Rattle.adx_json.specs.View.{tree_of};
ghost use Rattle.script_lines.specs.Found.{FindsLine, FindsValue, IsReadyLine};

use crate::ask::ask_line;
use crate::budget::{Change, change_of};
use crate::limits::LATEST_MOMENT;
use crate::members::{line_members, whole_in};
use crate::notice::{Notice, notice_of};
use crate::refusal::{LineFault, Refusal};
use adx_json::{Json, JsonFault, read};
use day_rules::Ask;
use deal_floor::Roster;
use std::alloc::Global;

/// The call of the day that a line means.
#[derive(Debug, Drop)]
pub enum ScriptLine {
    /// An ask, before the day settles it.
    Ask {
        /// The ask.
        ask: Ask,
    },
    /// A notice of an award.
    Notice {
        /// The notice.
        notice: Notice,
    },
    /// That time has come to a moment.
    Tick {
        /// The moment, in seconds.
        now: u64,
    },
    /// A change of a campaign's budget.
    Budget {
        /// The change.
        change: Change,
    },
}

/// The call that a line means on a day with this roster, or why it is refused. The line is taken without its newline.
pub fn read_line(alloc: Global, roster: &Roster, line: &[u8]) -> Result<ScriptLine, LineFault>
    ensures means { FindsLine roster.entry.now line.now result }
    ensures ready { IfOk result (IsReadyLine (length roster.entry.now.campaigns)) }
{
    match read(alloc, line) {
        Ok(value) => line_of(alloc, roster, &value),
        Err(JsonFault::OutOfMemory) => Err(LineFault::OutOfMemory),
        Err(fault) => Err(LineFault::Refused {
            why: Refusal::Json { fault },
        }),
    }
}

/// The call that a line's value means, or why it is refused.
fn line_of(alloc: Global, roster: &Roster, value: &Json) -> Result<ScriptLine, LineFault>
    ensures means { FindsValue roster.entry.now (tree_of value.now) result }
    ensures ready { IfOk result (IsReadyLine (length roster.entry.now.campaigns)) }
{
    let members = line_members(value);
    if let Some(request) = members.ask {
        let ask = ask_line(alloc, roster, request, members)?;
        return Ok(ScriptLine::Ask { ask });
    }
    if let Some(kind) = members.notice {
        return match notice_of(alloc, kind, members.auction, members.bid)? {
            Some(notice) => Ok(ScriptLine::Notice { notice }),
            None => Err(no_call()),
        };
    }
    if members.tick.is_some() {
        return match whole_in(members.tick, LATEST_MOMENT) {
            Some(now) => Ok(ScriptLine::Tick { now }),
            None => Err(no_call()),
        };
    }
    if members.budget.is_none() {
        return Err(no_call());
    }
    match change_of(
        roster,
        members.seat,
        members.cid,
        members.change,
        members.budget,
    ) {
        Some(change) => Ok(ScriptLine::Budget { change }),
        None => Err(no_call()),
    }
}

/// The refusal of a line that is no call.
fn no_call() -> LineFault
    ensures { result ≡ LineFault.Refused NoCall }
{
    LineFault::Refused {
        why: Refusal::NoCall,
    }
}
