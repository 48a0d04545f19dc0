//! How the reasons of refusals are spelled.
ghost use Rattle.std.specs.Prelude.{◌≡◌, ◌++◌, decimal, OnOk, string_bytes};
ghost use Rattle.script_lines.specs.Whys.{why_of, roster_why, json_why, request_why, member_why};

use crate::refusal::{Refusal, RosterRefusal};
use adx_json::{JsonFault, push_number};
use adx_units::OutOfMemory;
use deal_floor::RosterFault;
use rtb_request::RequestFault;

/// Writes why a line of a script is refused, as its line of output words it.
pub fn push_why(out: &mut String, why: &Refusal) -> Result<(), OutOfMemory>
    ensures { OnOk result (string_bytes out.new ≡ string_bytes out.old ++ why_of why.now) }
{
    match why {
        Refusal::Cut => push(out, "cut"),
        Refusal::Long => push(out, "long"),
        Refusal::Json { fault } => push_json_fault(out, *fault),
        Refusal::NoCall => push(out, "call"),
        Refusal::Request { fault } => push_request_fault(out, fault),
    }
}

/// Writes why the first line is no roster, as its line of output words it.
pub fn push_roster_why(out: &mut String, why: RosterRefusal) -> Result<(), OutOfMemory>
    ensures { OnOk result (string_bytes out.new ≡ string_bytes out.old ++ roster_why why) }
{
    match why {
        RosterRefusal::Cut => push(out, "cut"),
        RosterRefusal::Long => push(out, "long"),
        RosterRefusal::Json { fault } => push_json_fault(out, fault),
        RosterRefusal::Member { fault } => push_roster_fault(out, fault),
    }
}

fn push_json_fault(out: &mut String, fault: JsonFault) -> Result<(), OutOfMemory>
    ensures { OnOk result (string_bytes out.new ≡ string_bytes out.old ++ json_why fault) }
{
    match fault {
        JsonFault::Syntax { at } => push_numbered(out, "json syntax ", at),
        JsonFault::Utf8 { at } => push_numbered(out, "json utf8 ", at),
        JsonFault::Depth { at } => push_numbered(out, "json depth ", at),
        JsonFault::OutOfMemory => Ok(()),
    }
}

fn push_request_fault(out: &mut String, fault: &RequestFault) -> Result<(), OutOfMemory>
    ensures { OnOk result (string_bytes out.new ≡ string_bytes out.old ++ request_why fault.now) }
{
    match fault {
        RequestFault::NoId => push(out, "request noid"),
        RequestFault::NoImp => push(out, "request noimp"),
        RequestFault::TooManyImps => push(out, "request manyimps"),
        RequestFault::RepeatedImp { id } => push_both(out, "request repeated ", id.as_str()),
        RequestFault::BadField { field } => push_both(out, "request field ", field.name()),
        RequestFault::OutOfMemory => Ok(()),
    }
}

fn push_roster_fault(out: &mut String, fault: RosterFault) -> Result<(), OutOfMemory>
    ensures { OnOk result (string_bytes out.new ≡ string_bytes out.old ++ member_why fault) }
{
    match fault {
        RosterFault::BadField { field } => push_both(out, "field ", field.name()),
        RosterFault::Repeated { index } => push_numbered(out, "repeated ", index as u64),
        RosterFault::TooMany => push(out, "toomany"),
        RosterFault::OutOfMemory => Ok(()),
    }
}

fn push(out: &mut String, text: &str) -> Result<(), OutOfMemory>
    ensures { OnOk result (string_bytes out.new ≡ string_bytes out.old ++ text.now) }
{
    Ok(out.push_str(text)?)
}

fn push_both(out: &mut String, first: &str, second: &str) -> Result<(), OutOfMemory>
    ensures { OnOk result (string_bytes out.new ≡ string_bytes out.old ++ (first.now ++ second.now)) }
{
    out.push_str(first)?;
    Ok(out.push_str(second)?)
}

fn push_numbered(out: &mut String, text: &str, number: u64) -> Result<(), OutOfMemory>
    ensures { OnOk result (string_bytes out.new ≡ string_bytes out.old ++ (text.now ++ decimal number)) }
{
    out.push_str(text)?;
    push_number(out, number)
}
