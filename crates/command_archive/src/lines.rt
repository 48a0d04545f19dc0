//! The lines.
ghost use Rattle.std.specs.Prelude.{◌≡◌, ◌++◌, ◌∷◌, [], IsOk, OnOk, string_bytes, codes};
ghost use Rattle.std.specs.Fmt.{decimal};
ghost use Rattle.adx_units.specs.JsonTexts.{text_spelling};
ghost use Rattle.formats.specs.Parts.{ended};
ghost use Rattle.day_archive.specs.declared.refusal.KeeperRefusal.TheVariants.{KeeperFault};
ghost use Rattle.command_archive.specs.Lines.{imps_text, kept_line, refusal_text, row_line, row_lines};

use adx_units::{OutOfMemory, push_text};
use day_archive::{DayRow, KeeperRefusal};
use itoa::Buffer;

/// Puts a text at the end as it is.
fn push(out: &mut String, text: &str) -> Result<(), OutOfMemory>
    ensures { OnOk result (string_bytes out.new ≡ string_bytes out.old ++ text.now) }
{
    out.push_str(text)?;
    Ok(())
}

/// Puts an amount at the end, in decimal.
fn push_amount(out: &mut String, amount: u128) -> Result<(), OutOfMemory>
    ensures { OnOk result (string_bytes out.new ≡ string_bytes out.old ++ decimal amount) }
{
    let mut digits = Buffer::new();
    push(out, digits.format(amount))
}

/// Puts a number of impressions at the end.
fn push_imps(out: &mut String, imps: Option<u64>) -> Result<(), OutOfMemory>
    ensures { OnOk result (string_bytes out.new ≡ string_bytes out.old ++ imps_text imps) }
{
    match imps {
        Some(imps) => push_amount(out, u128::from(imps)),
        None => push(out, "null"),
    }
}

/// Puts the names of a row at the end.
fn push_names(out: &mut String, row: &DayRow) -> Result<(), OutOfMemory>
    ensures { OnOk result (string_bytes out.new ≡ string_bytes out.old
        ++ (codes "{\"day\":" ++ text_spelling row.now.day ++ codes ",\"seat\":" ++ text_spelling row.now.seat
        ++ codes ",\"cid\":" ++ text_spelling row.now.cid)) }
{
    push(out, "{\"day\":")?;
    push_text(out, row.day.as_str())?;
    push(out, ",\"seat\":")?;
    push_text(out, row.seat.as_str())?;
    push(out, ",\"cid\":")?;
    push_text(out, row.cid.as_str())
}

/// Puts the campaign's money at the end.
fn push_money(out: &mut String, row: &DayRow) -> Result<(), OutOfMemory>
    ensures { OnOk result (string_bytes out.new ≡ string_bytes out.old
        ++ (codes ",\"budget\":" ++ decimal row.now.budget.0 ++ codes ",\"committed\":" ++ decimal row.now.committed
        ++ codes ",\"billed\":" ++ decimal row.now.billed)) }
{
    push(out, ",\"budget\":")?;
    push_amount(out, u128::from(row.budget.0))?;
    push(out, ",\"committed\":")?;
    push_amount(out, row.committed)?;
    push(out, ",\"billed\":")?;
    push_amount(out, row.billed)
}

/// Puts what the day's rows have in common at the end.
fn push_day(out: &mut String, row: &DayRow) -> Result<(), OutOfMemory>
    ensures { OnOk result (string_bytes out.new ≡ string_bytes out.old
        ++ (codes ",\"bound\":" ++ decimal row.now.bound ++ codes ",\"imps\":" ++ imps_text row.now.imps ++ codes "}\n")) }
{
    push(out, ",\"bound\":")?;
    push_amount(out, row.bound)?;
    push(out, ",\"imps\":")?;
    push_imps(out, row.imps)?;
    push(out, "}\n")
}

/// Puts the line of a row at the end.
fn push_row(out: &mut String, row: &DayRow) -> Result<(), OutOfMemory>
    ensures { OnOk result (string_bytes out.new ≡ string_bytes out.old ++ ended (row_line row.now)) }
{
    push_names(out, row)?;
    push_money(out, row)?;
    push_day(out, row)
}

/// Puts the lines of rows at the end.
pub(crate) fn push_rows(out: &mut String, rows: &[DayRow]) -> Result<(), OutOfMemory>
    ensures { OnOk result (string_bytes out.new ≡ string_bytes out.old ++ row_lines rows.now) }
{
    for row in rows {
        push_row(out, row)?;
    }
    Ok(())
}

/// Puts a line that names a day behind its front.
fn push_named(out: &mut String, front: &str, day: &str) -> Result<(), OutOfMemory>
    ensures { OnOk result (string_bytes out.new ≡ string_bytes out.old ++ ended (front.now ++ text_spelling day.now ++ codes "}")) }
{
    push(out, front)?;
    push_text(out, day)?;
    push(out, "}\n")
}

/// Puts the line of a kept day at the end.
pub(crate) fn push_kept(out: &mut String, day: &str) -> Result<(), OutOfMemory>
    ensures { OnOk result (string_bytes out.new ≡ string_bytes out.old ++ ended (kept_line day.now)) }
{
    push_named(out, "{\"answer\":\"kept\",\"day\":", day)
}

/// Puts what is written of a refusal at the end.
pub(crate) fn push_refusal(out: &mut String, refusal: KeeperRefusal) -> Result<(), OutOfMemory>
    ensures text { OnOk result (string_bytes out.new ≡ string_bytes out.old ++ refusal_text refusal) }
    ensures fault { refusal ≡ KeeperFault → IsOk result }
{
    match refusal {
        KeeperRefusal::DayThere { day } => push_named(
            out,
            "{\"answer\":\"keeper\",\"why\":\"daythere\",\"day\":",
            day.as_str(),
        ),
        KeeperRefusal::BadDate { day } => push_named(
            out,
            "{\"answer\":\"keeper\",\"why\":\"baddate\",\"day\":",
            day.as_str(),
        ),
        KeeperRefusal::BadRange => push(out, "{\"answer\":\"keeper\",\"why\":\"badrange\"}\n"),
        KeeperRefusal::KeeperFault => Ok(()),
    }
}
