//! The line of each answer.
ghost use Rattle.std.specs.Prelude.{◌≡◌, ◌++◌, OnOk, option_map, string_bytes};
ghost use Rattle.hex.specs.Hex.{encode_lower};
ghost use Rattle.answer_lines.specs.Answers.{answer_line, below_line, budgetreused_line, conflict_line, dayfull_line, end_text, late_line, repeat_line, reused_line, ticked_line, which_text};

use crate::awards::{push_ask, push_awarded, push_no_sale};
use crate::pieces::push;
use adx_json::push_number;
use adx_units::{OutOfMemory, Units};
use day_rules::{Answer, Ask, Which};
use deal_floor::Campaign;
use hex::encode_to_slice;
use notice_book::End;

fn push_which(out: &mut String, which: Which) -> Result<(), OutOfMemory>
    ensures { OnOk result (string_bytes out.new ≡ string_bytes out.old ++ which_text which) }
{
    match which {
        Which::Auctions => push(out, "auctions"),
        Which::Bids => push(out, "bids"),
        Which::Text => push(out, "text"),
        Which::Changes => push(out, "changes"),
    }
}

/// Writes the line of an ask or a change that would pass a limit of the day.
fn push_day_full(out: &mut String, which: Which, count: u64) -> Result<(), OutOfMemory>
    ensures { OnOk result (string_bytes out.new ≡ string_bytes out.old ++ dayfull_line which count) }
{
    push(out, "{\"answer\":\"dayfull\",\"which\":\"")?;
    push_which(out, which)?;
    push(out, "\",\"count\":")?;
    push_number(out, count)?;
    push(out, "}")
}

/// Writes a digest in lower-case hexadecimal digits, two for each byte (base 16 of RFC 4648, in lower case).
pub fn push_digest(out: &mut String, digest: &[u8; 32]) -> Result<(), OutOfMemory>
    ensures { OnOk result (string_bytes out.new ≡ string_bytes out.old ++ encode_lower digest.now) }
{
    let mut digits = [0; 64];
    match encode_to_slice(digest.as_slice(), &mut digits) {
        Ok(()) => push(out, str::from_utf8(&digits).unwrap()),
        Err(_) => unreachable!(),
    }
}

/// Writes the line of an id that is there with another request.
fn push_reused(out: &mut String, kept: &[u8; 32], given: &[u8; 32]) -> Result<(), OutOfMemory>
    ensures { OnOk result (string_bytes out.new ≡ string_bytes out.old ++ reused_line kept.now given.now) }
{
    push(out, "{\"answer\":\"reused\",\"kept\":\"")?;
    push_digest(out, kept)?;
    push(out, "\",\"given\":\"")?;
    push_digest(out, given)?;
    push(out, "\"}")
}

fn push_end(out: &mut String, kept: End) -> Result<(), OutOfMemory>
    ensures { OnOk result (string_bytes out.new ≡ string_bytes out.old ++ end_text kept) }
{
    match kept {
        End::Billed => push(out, "billed"),
        End::Lost => push(out, "lost"),
        End::Expired => push(out, "expired"),
    }
}

/// Writes the line of a notice that came too late, by how its award ended.
fn push_conflict(out: &mut String, kept: End) -> Result<(), OutOfMemory>
    ensures { OnOk result (string_bytes out.new ≡ string_bytes out.old ++ conflict_line kept) }
{
    push(out, "{\"answer\":\"conflict\",\"kept\":\"")?;
    push_end(out, kept)?;
    push(out, "\"}")
}

/// Writes the line of a tick, by how many awards it ended.
fn push_ticked(out: &mut String, ended: u32) -> Result<(), OutOfMemory>
    ensures { OnOk result (string_bytes out.new ≡ string_bytes out.old ++ ticked_line ended) }
{
    push(out, "{\"answer\":\"ticked\",\"ended\":")?;
    push_number(out, u64::from(ended))?;
    push(out, "}")
}

/// Writes the line of a change whose number is there with another budget, in units.
fn push_budget_reused(out: &mut String, kept: Units) -> Result<(), OutOfMemory>
    ensures { OnOk result (string_bytes out.new ≡ string_bytes out.old ++ budgetreused_line kept.0) }
{
    push(out, "{\"answer\":\"budgetreused\",\"kept\":")?;
    push_number(out, kept.0)?;
    push(out, "}")
}

/// Writes the line of a change whose number is below the campaign's greatest.
fn push_late(out: &mut String, last: u32) -> Result<(), OutOfMemory>
    ensures { OnOk result (string_bytes out.new ≡ string_bytes out.old ++ late_line last) }
{
    push(out, "{\"answer\":\"late\",\"last\":")?;
    push_number(out, u64::from(last))?;
    push(out, "}")
}

/// Writes the line of a budget below the campaign's committed money, in units.
fn push_below(out: &mut String, committed: Units) -> Result<(), OutOfMemory>
    ensures { OnOk result (string_bytes out.new ≡ string_bytes out.old ++ below_line committed.0) }
{
    push(out, "{\"answer\":\"below\",\"committed\":")?;
    push_number(out, committed.0)?;
    push(out, "}")
}

/// Writes the line of a repeat: of an ask its own line.
fn push_repeat(
    out: &mut String,
    campaigns: &[Campaign],
    ask: Option<&Ask>,
) -> Result<(), OutOfMemory>
    ensures { OnOk result (string_bytes out.new ≡ string_bytes out.old ++ repeat_line campaigns.now (option_map (λ a. a.now) ask.entry)) }
{
    match ask {
        Some(ask) => push_ask(out, campaigns, ask),
        None => push(out, "{\"answer\":\"repeat\"}"),
    }
}

/// Writes the line of an answer, without a newline. `ask` is the ask that the answer is about: the one
/// that was taken now, or the one that is in the history already; a notice, a tick and a change of a
/// budget are about none.
pub fn push_answer(
    out: &mut String,
    campaigns: &[Campaign],
    answer: &Answer,
    ask: Option<&Ask>,
) -> Result<(), OutOfMemory>
    ensures { OnOk result (string_bytes out.new ≡ string_bytes out.old
        ++ answer_line campaigns.now answer.now (option_map (λ a. a.now) ask.entry)) }
{
    match answer {
        Answer::Awarded { .. } => match ask {
            Some(ask) => push_awarded(out, campaigns, ask),
            None => Ok(()),
        },
        Answer::NoSale { .. } => match ask {
            Some(ask) => push_no_sale(out, ask),
            None => Ok(()),
        },
        Answer::Counted => push(out, "{\"answer\":\"counted\"}"),
        Answer::Repeat { .. } => push_repeat(out, campaigns, ask),
        Answer::Conflict { kept } => push_conflict(out, *kept),
        Answer::Unknown => push(out, "{\"answer\":\"unknown\"}"),
        Answer::Ticked { ended } => push_ticked(out, *ended),
        Answer::Reused { kept_digest, given } => push_reused(out, kept_digest, given),
        Answer::DayFull { which, count } => push_day_full(out, *which, *count),
        Answer::Budgeted => push(out, "{\"answer\":\"budget\"}"),
        Answer::BudgetReused { kept } => push_budget_reused(out, *kept),
        Answer::Late { last } => push_late(out, *last),
        Answer::BelowCommitted { committed } => push_below(out, *committed),
        Answer::NoCampaign => push(out, "{\"answer\":\"nocampaign\"}"),
    }
}
