//! The body of the command that files a day.
ghost use Rattle.std.specs.Prelude.{◌≡◌, ◌≤◌, ◌+◌, ◌++◌, ℕ, List, Err, IfOk, IsOk, OnOk, OnErr, length, string_bytes, string_capacity, string_len};
ghost use Rattle.adx_io.specs.Streams.{WhereTold};
ghost use Rattle.day_archive.specs.Kept.{AreOfOneDay, day_of as first_day};
ghost use Rattle.day_archive.specs.declared.refusal.KeeperRefusal.TheVariants.{KeeperFault};
ghost use Rattle.day_archive.specs.Answers.{HasKeeperCause, TellsPut};
ghost use Rattle.formats.specs.Parts.{ended};
ghost use Rattle.command_archive.specs.Lines.{kept_line};
ghost use Rattle.command_archive.specs.Courses.{Counts, Files, IsAtMostUpgraded, PutsUpgraded, ending, put_text};

use crate::filing::Filing;
use crate::lines::{push_kept, push_refusal};
use crate::listing::ending_of;
use adx_units::OutOfMemory;
use day_archive::{DayRow, Keeper, KeeperRefusal, day_of};

/// Upgrades the keeper, and then puts.
fn upgrade_and_put<P: Keeper>(keeper: &mut P, rows: &[DayRow]) -> Result<(), KeeperRefusal>
    requires { AreOfOneDay rows.now }
    ensures day { TellsPut rows.now result }
    ensures kept { WhereTold (P.contents keeper.old) (P.contents keeper.new) (PutsUpgraded rows.now result) }
    ensures cause { HasKeeperCause (P.faults keeper.old) (P.faults keeper.new) result }
{
    keeper.upgrade()?;
    keeper.put_day(rows)
}

/// Makes room in a text for the line of a kept day, and gives the line.
fn line_of(out: &mut String, day: &str) -> Result<String, OutOfMemory>
    ensures line { IfOk result (λ line. string_bytes line ≡ ended (kept_line day.now)) }
    ensures room { IfOk result (λ line. string_len out.new + string_len line ≤ string_capacity out.new) }
    ensures bytes { string_bytes out.new ≡ string_bytes out.old }
{
    let mut line = String::new(*out.allocator());
    push_kept(&mut line, day)?;
    out.reserve(line.len())?;
    Ok(line)
}

/// Puts a text at the end, for which there is room.
fn put(out: &mut String, text: &str)
    requires { string_len out.old + length text.now ≤ string_capacity out.old }
    ensures { string_bytes out.new ≡ string_bytes out.old ++ text.now }
{
    match out.push_str(text) {
        Ok(()) | Err(_) => {}
    }
}

/// Puts the line of the kept day, for which there is room, or why the day wasn't kept, and says how the command ends.
fn push_answer(
    out: &mut String,
    line: &str,
    rows: &[DayRow],
    answer: Result<(), KeeperRefusal>,
) -> Result<Filing, OutOfMemory>
    requires line { line.now ≡ ended (kept_line (first_day rows.now)) }
    requires room { string_len out.old + length line.now ≤ string_capacity out.old }
    ensures text { OnOk result (string_bytes out.new ≡ string_bytes out.old ++ put_text rows.now answer) }
    ensures ends { IfOk result (λ end. end ≡ ending answer) }
    ensures kept { IsOk answer → IsOk result }
    ensures fault { answer ≡ Err KeeperFault → IsOk result }
{
    match answer {
        Ok(()) => {
            put(out, line);
            Ok(Filing::Done)
        }
        Err(refusal) => {
            let end = ending_of(&refusal);
            push_refusal(out, refusal)?;
            Ok(end)
        }
    }
}

/// Keeps the rows of a day, all or none, and puts a line at the end of `out` that says so, or why not. The keeper is
/// upgraded first. Where memory is refused no row of the day is kept.
pub fn file_day<P: Keeper>(
    keeper: &mut P,
    rows: &[DayRow],
    out: &mut String,
) -> Result<Filing, OutOfMemory>
    requires { AreOfOneDay rows.now }
    ensures filed { IfOk result (λ end. (written : List ℕ) × (string_bytes out.new ≡ string_bytes out.old ++ written)
        × Files rows.now (P.contents keeper.old) (P.contents keeper.new) written end) }
    ensures refused { OnErr result (WhereTold (P.contents keeper.old) (P.contents keeper.new) IsAtMostUpgraded) }
    ensures cause { IfOk result (Counts (P.faults keeper.old) (P.faults keeper.new)) }
    ensures stands { OnErr result (P.faults keeper.new ≡ P.faults keeper.old) }
{
    let line = line_of(out, day_of(rows))?;
    let answer = upgrade_and_put(keeper, rows);
    push_answer(out, line.as_str(), rows, answer)
}
