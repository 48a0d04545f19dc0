//! Calls that were given up.
ghost use Rattle.std.specs.Prelude.{◌≡◌, ◌++◌, OnOk, string_bytes};
ghost use Rattle.answer_lines.specs.Answers.{fault_line};

use crate::pieces::push;
use adx_json::push_number;
use adx_units::OutOfMemory;

/// Why a call was given up: the day is as it was.
#[derive(Clone, Copy, Debug, PartialEq, Eq)]
pub enum Fault {
    /// The disk failed.
    Disk,
    /// The journal would come to `size` bytes, which is more than it may have.
    JournalFull { size: u64 },
}

/// Writes the line of a call that was given up, without a newline.
pub fn push_fault(out: &mut String, fault: Fault) -> Result<(), OutOfMemory>
    ensures { OnOk result (string_bytes out.new ≡ string_bytes out.old ++ fault_line fault) }
{
    match fault {
        Fault::Disk => push(out, "{\"answer\":\"diskfault\"}"),
        Fault::JournalFull { size } => push_journal_full(out, size),
    }
}

fn push_journal_full(out: &mut String, size: u64) -> Result<(), OutOfMemory>
    ensures { OnOk result (string_bytes out.new ≡ string_bytes out.old ++ fault_line (Fault.JournalFull size)) }
{
    push(out, "{\"answer\":\"journalfull\",\"size\":")?;
    push_number(out, size)?;
    push(out, "}")
}
