//! The lines that say why a day can't be opened on its disk.
ghost use Rattle.std.specs.Prelude.{◌≡◌, ◌++◌, OnOk, codes, string_bytes};
ghost use Rattle.history_runs.specs.Output.{otherroster_line, place_line, unopened_line};
ghost use Rattle.answer_lines.specs.Answers.{fault_line};
ghost use Rattle.answer_lines.specs.declared.faults.Fault.{Fault as FaultLine};
ghost use Rattle.adx_io.specs.Talk.{ended};

use adx_desk::DeskFault;
use adx_json::push_number;
use adx_units::OutOfMemory;
use answer_lines::{Fault, push_digest, push_fault};

/// Writes a text as it is.
fn push(out: &mut String, text: &str) -> Result<(), OutOfMemory>
    ensures { OnOk result (string_bytes out.new ≡ string_bytes out.old ++ text.now) }
{
    out.push_str(text)?;
    Ok(())
}

/// Writes why the file is no journal of the day, and where.
fn push_place(out: &mut String, why: &str, at: u64) -> Result<(), OutOfMemory>
    ensures { OnOk result (string_bytes out.new ≡ string_bytes out.old ++ place_line why.now at) }
{
    push(out, "{\"answer\":\"journal\",\"why\":\"")?;
    push(out, why)?;
    push(out, "\",\"at\":")?;
    push_number(out, at)?;
    push(out, "}\n")
}

/// Writes that the journal is another roster's, by what it keeps.
fn push_other_roster(out: &mut String, kept: &[u8; 32]) -> Result<(), OutOfMemory>
    ensures { OnOk result (string_bytes out.new ≡ string_bytes out.old ++ otherroster_line kept.now) }
{
    push(
        out,
        "{\"answer\":\"journal\",\"why\":\"otherroster\",\"kept\":\"",
    )?;
    push_digest(out, kept)?;
    push(out, "\"}\n")
}

/// Writes that the journal has no room.
fn push_no_room(out: &mut String, size: u64) -> Result<(), OutOfMemory>
    ensures { OnOk result (string_bytes out.new ≡ string_bytes out.old ++ ended (fault_line (FaultLine.JournalFull size))) }
{
    push_fault(out, Fault::JournalFull { size })?;
    push(out, "\n")
}

/// Writes the line that says why a day wasn't opened, behind what is there. A fault of the disk and want of memory have none,
/// and then nothing is written. Where memory is refused, a part of the line may stand there.
pub fn push_unopened(out: &mut String, fault: &DeskFault) -> Result<(), OutOfMemory>
    ensures { OnOk result (string_bytes out.new ≡ string_bytes out.old ++ unopened_line fault.now) }
{
    match fault {
        DeskFault::NotAJournal { at } => push_place(out, "notajournal", *at),
        DeskFault::BadLength { at } => push_place(out, "badlength", *at),
        DeskFault::BadEntry { at } => push_place(out, "badentry", *at),
        DeskFault::OtherRoster { kept } => push_other_roster(out, kept),
        DeskFault::JournalFull { size } => push_no_room(out, *size),
        DeskFault::DiskFault | DeskFault::OutOfMemory => Ok(()),
    }
}
