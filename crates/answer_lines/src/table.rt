//! The closing table.
ghost use Rattle.std.specs.Prelude.{◌≡◌, ◌<◌, ◌++◌, length, List, OnOk, string_bytes};
ghost use Rattle.campaign_book.specs.Accounts.{account_at, IsAccount};
ghost use Rattle.day_rules.specs.Books.{accounts_in, awards_of};
ghost use Rattle.day_rules.specs.DayMeters.{meters_after};
ghost use Rattle.day_rules.specs.declared.entry.Entry.{Entry};
ghost use Rattle.day_rules.specs.Terms.{Terms, budgets_after};
ghost use Rattle.std.specs.List.{flat_map, enumerate_from};
ghost use Rattle.answer_lines.specs.Table.{account_line, campaign_line, closing_table, counts_text};

use crate::pieces::push;
use adx_json::push_number;
use adx_units::{OutOfMemory, push_text};
use campaign_book::{Book, slab_of};
use day_rules::Meters;
use deal_floor::Campaign;

/// Writes a campaign's row of the closing table.
fn push_campaign(
    out: &mut String,
    campaign: &Campaign,
    book: &Book,
    place: u32,
) -> Result<(), OutOfMemory>
    requires there { place < length book.now }
    requires sound { IsAccount (account_at book.now place) }
    ensures { OnOk result (string_bytes out.new ≡ string_bytes out.old ++ account_line campaign.now (account_at book.now place)) }
{
    let budget = book.budget(place).0;
    push(out, "{\"seat\":")?;
    push_text(out, campaign.seat.as_str())?;
    push(out, ",\"cid\":")?;
    push_text(out, campaign.cid.as_str())?;
    push(out, ",\"budget\":")?;
    push_number(out, budget)?;
    push(out, ",\"reserved\":")?;
    push_number(out, book.reserved(place).0)?;
    push(out, ",\"billed\":")?;
    push_number(out, book.billed(place).0)?;
    push(out, ",\"slab\":")?;
    push_number(out, u64::from(slab_of(book.committed(place).0, budget)))?;
    push(out, "}\n")?;
    Ok(())
}

/// Writes a row for each campaign of the roster.
fn push_rows(out: &mut String, campaigns: &[Campaign], book: &Book) -> Result<(), OutOfMemory>
    requires { length book.now ≡ length campaigns.now }
    ensures { OnOk result (string_bytes out.new ≡ string_bytes out.old
        ++ flat_map (campaign_line book.now) (enumerate_from 0 campaigns.now)) }
{
    for place in 0..book.count() {
        push_campaign(out, &campaigns[place as usize], book, place)?;
    }
    Ok(())
}

/// Writes the row of counts of the closing table.
fn push_counts(out: &mut String, asks: u64, awards: u64, entries: u64) -> Result<(), OutOfMemory>
    ensures { OnOk result (string_bytes out.new ≡ string_bytes out.old ++ counts_text asks awards entries) }
{
    push(out, "{\"asks\":")?;
    push_number(out, asks)?;
    push(out, ",\"awards\":")?;
    push_number(out, awards)?;
    push(out, ",\"entries\":")?;
    push_number(out, entries)?;
    push(out, "}\n")
}

/// Writes the closing table: a row for each campaign of the roster, and the counts. The meters and the book are those of one
/// history, the book with its current budgets.
pub fn push_table(
    out: &mut String,
    campaigns: &[Campaign],
    book: &Book,
    meters: Meters,
) -> Result<(), OutOfMemory>
    requires { length book.now ≡ length campaigns.now }
    ensures { OnOk result ((terms : Terms) → (history : List Entry) → meters ≡ meters_after history
        → book.now ≡ accounts_in (budgets_after terms history) (awards_of history)
        → string_bytes out.new ≡ string_bytes out.old ++ closing_table campaigns.now terms history) }
{
    push_rows(out, campaigns, book)?;
    push_counts(out, meters.asks, meters.awards, meters.entries)?;
    Ok(())
}
