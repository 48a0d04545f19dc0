//! The parts of a record's lines that want no memory.
ghost use Rattle.std.specs.Prelude.{◌≡◌, ◌<◌, ◌≤◌, ◌^◌, length, Some};
ghost use Rattle.formats.specs.Parts.{Finds};
ghost use Rattle.bid_record.specs.Reading.{number_part_at, amount_at, changes_at, end_at, chosen_at, ending_at, charge_of, offer_at, end_line_at};

use crate::rows::End;
use formats::{behind, byte_behind, is_done, number};

/// The largest budget, in units.
pub(crate) const BUDGET_LIMIT: u64 = 1_000_000_000_000_000;

/// The largest charge, in units.
pub(crate) const CHARGE_LIMIT: u64 = 1_000_000_000_000;

/// A place and what became of it, or neither, and the bytes behind.
#[derive(Drop)]
pub(crate) struct Ending<'a> {
    pub chosen: Option<u64>,
    pub end: Option<End>,
    pub rest: &'a [u8],
}

/// An offer as its line has it.
#[derive(Drop)]
pub(crate) struct Offered<'a> {
    pub campaign: u64,
    pub charge: u64,
    pub rest: &'a [u8],
}

/// The number behind a space, and the bytes behind it.
#[tactic(auto, unfolding(crate::specs::Reading::number_part_at))]
pub(crate) fn number_part(bytes: &[u8]) -> Option<(u64, &[u8])>
    ensures { Finds (λ x. (x.0, x.1.now)) result (number_part_at bytes.now) }
{
    let rest = byte_behind(bytes, b' ')?;
    number(rest)
}

/// The number from 1 to a limit behind this byte, and the bytes behind it.
#[tactic(auto, unfolding(crate::specs::Reading::amount_at))]
pub(crate) fn amount(bytes: &[u8], mark: u8, limit: u64) -> Option<(u64, &[u8])>
    ensures { Finds (λ x. (x.0, x.1.now)) result (amount_at mark limit bytes.now) }
{
    let rest = byte_behind(bytes, mark)?;
    let (amount, rest) = number(rest)?;
    if amount >= 1 && amount <= limit {
        Some((amount, rest))
    } else {
        None
    }
}

/// The number of changes, where the format has one, and the bytes behind it.
#[tactic(auto, unfolding(crate::specs::Reading::changes_at))]
pub(crate) fn changes(bytes: &[u8], format: u8) -> Option<(Option<u32>, &[u8])>
    ensures { Finds (λ x. (x.0, x.1.now)) result (changes_at format bytes.now) }
{
    if format == 2 {
        let (changes, rest) = number_part(bytes)?;
        if changes <= u64::from(u32::MAX) {
            Some((Some(changes as u32), rest))
        } else {
            None
        }
    } else {
        Some((None, bytes))
    }
}

/// What became of a chosen offer, and the bytes behind it.
#[tactic(auto, unfolding(crate::specs::Reading::end_at))]
fn end(bytes: &[u8]) -> Option<(End, &[u8])>
    ensures { Finds (λ x. (x.0, x.1.now)) result (end_at bytes.now) }
{
    if let Some(rest) = behind(bytes, b" live") {
        return Some((End::Live, rest));
    }
    if let Some(rest) = behind(bytes, b" billed") {
        return Some((End::Billed, rest));
    }
    if let Some(rest) = behind(bytes, b" lost") {
        return Some((End::Lost, rest));
    }
    match behind(bytes, b" expired") {
        Some(rest) => Some((End::Expired, rest)),
        None => None,
    }
}

#[tactic(auto, unfolding(crate::specs::Reading::chosen_at))]
fn chosen(bytes: &[u8]) -> Option<(u64, End, &[u8])>
    ensures { Finds (λ x. (x.0, x.1, x.2.now)) result (chosen_at bytes.now) }
{
    let (place, rest) = number_part(bytes)?;
    let (end, rest) = end(rest)?;
    Some((place, end, rest))
}

/// A dash for the chosen offer and its end, or both.
#[tactic(auto, unfolding(crate::specs::Reading::ending_at))]
pub(crate) fn ending_part(bytes: &[u8]) -> Option<Ending<'_>>
    ensures { Finds (λ x. (x.chosen, x.end, x.rest.now)) result (ending_at bytes.now) }
{
    if let Some(rest) = behind(bytes, b" - -") {
        return Some(Ending {
            chosen: None,
            end: None,
            rest,
        });
    }
    match chosen(bytes) {
        Some((place, end, rest)) => Some(Ending {
            chosen: Some(place),
            end: Some(end),
            rest,
        }),
        None => None,
    }
}

/// The offer at the front.
#[tactic(auto, unfolding(crate::specs::Reading::offer_at))]
pub(crate) fn offer(bytes: &[u8]) -> Option<Offered<'_>>
    ensures { Finds (λ x. (charge_of x.campaign x.charge, x.rest.now)) result (offer_at bytes.now) }
{
    let (campaign, rest) = number_part(bytes)?;
    let (charge, rest) = amount(rest, b':', CHARGE_LIMIT)?;
    Some(Offered {
        campaign,
        charge,
        rest,
    })
}

/// The number of impressions that the last line says.
#[tactic(auto, unfolding(crate::specs::Reading::end_line_at))]
pub(crate) fn end_line(line: &[u8]) -> Option<u64>
    ensures { Finds (λ n. n) result (end_line_at line.now) }
{
    let rest = behind(line, b"end")?;
    let (imps, rest) = number_part(rest)?;
    is_done(rest)?;
    Some(imps)
}
