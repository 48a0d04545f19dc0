//! The closing table of a desk's day.
ghost use Rattle.std.specs.Prelude.{◌≡◌, ◌++◌, length, IfOk, OnOk, string_bytes};
ghost use Rattle.adx_desk.specs.Rosters.{desk_terms};
ghost use Rattle.answer_lines.specs.Table.{closing_table};

use crate::desk::Desk;
use adx_units::{OutOfMemory, Text};
use answer_lines::push_table;
use day_journal::Disk;
use deal_floor::{Campaign, Roster};
use std::alloc::Global;

/// Writes the closing table of a day with these campaigns.
fn push_campaigns<D: Disk>(
    out: &mut String,
    desk: &Desk<D>,
    campaigns: &[Campaign],
) -> Result<(), OutOfMemory>
    requires { length desk.now.desk.terms.day.budgets ≡ length campaigns.now }
    ensures { OnOk result (string_bytes out.new ≡ string_bytes out.old ++ closing_table campaigns.now desk.now.desk.terms.day desk.now.desk.history) }
{
    push_table(out, campaigns, desk.book(), desk.meters())?;
    Ok(())
}

/// Writes the closing table of the day of a roster, after what is there: a line for each campaign with its money, in units
/// (millionths of a CPM dollar), in the roster's order, and a line with the counts of the desk's history. Where memory is
/// refused, a part of the table may be there.
pub fn push_books<D: Disk>(
    out: &mut String,
    desk: &Desk<D>,
    roster: &Roster,
) -> Result<(), OutOfMemory>
    requires { desk.now.desk.terms.day ≡ (desk_terms roster.now).day }
    ensures { OnOk result (string_bytes out.new ≡ string_bytes out.old
        ++ closing_table roster.entry.now.campaigns (desk_terms roster.entry.now).day desk.now.desk.history) }
{
    push_campaigns(out, desk, roster.campaigns.as_slice())?;
    Ok(())
}

/// The same as a text of its own.
pub fn table_of<D: Disk>(
    alloc: Global,
    desk: &Desk<D>,
    roster: &Roster,
) -> Result<Text, OutOfMemory>
    requires { desk.now.desk.terms.day ≡ (desk_terms roster.now).day }
    ensures { IfOk result (λ text. text
        ≡ closing_table roster.entry.now.campaigns (desk_terms roster.entry.now).day desk.now.desk.history) }
{
    let mut table = String::new(alloc);
    push_books(&mut table, desk, roster)?;
    Ok(Text::from(table))
}
