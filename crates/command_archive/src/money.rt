//! The money of a record's campaigns in its awards, in one pass over the impressions.
ghost use Rattle.std.specs.Prelude.{◌≡◌, ℕ, ◌+◌, ◌<◌, ◌≤◌, ◌^◌, All, IfOk, IfSome, length, slice_index, vec_len};
ghost use Rattle.bid_record.specs.Records.{IsCharge};
ghost use Rattle.command_archive.specs.Moneys.{AreFew, HasMoneys, charged, counts_by};
ghost use Rattle.command_archive.specs.Rows.{money_in};
ghost use Rattle.dual_cert.specs.Assignments.{charge_for};

use adx_units::OutOfMemory;
use bid_record::{Charge, End, ImpRow};
use std::alloc::Global;

/// Which awards count.
#[derive(Clone, Copy, Debug, PartialEq, Eq)]
pub(crate) enum Counting {
    /// Those that are billed.
    Billed,
    /// Those that are billed or open.
    Committed,
}

/// The money of each campaign.
#[derive(Debug, Drop)]
pub(crate) struct Moneys {
    /// In awards that are billed or open.
    pub(crate) committed: Vec<u128>,
    /// In awards that are billed.
    pub(crate) billed: Vec<u128>,
}

/// Whether an award with this end counts.
fn counts(counting: Counting, end: Option<End>) -> bool
    ensures { result ≡ counts_by counting end }
{
    match end {
        Some(End::Billed) => true,
        Some(End::Live) => match counting {
            Counting::Billed => false,
            Counting::Committed => true,
        },
        Some(End::Lost) | Some(End::Expired) | None => false,
    }
}

/// The offer that an impression's award charges, where it counts.
fn counted(counting: Counting, row: &ImpRow, campaigns: usize) -> Option<Charge>
    requires { All (IsCharge campaigns) row.now.offers }
    ensures listed { IfSome result (IsCharge campaigns) }
    ensures value { (campaign : ℕ) → money_in (counts_by counting) campaign row.now ≡ charged campaign result }
{
    if !counts(counting, row.end) {
        return None;
    }
    let place = row.chosen?;
    let offers = row.offers.as_slice();
    if (place as usize) < offers.len() {
        Some(offers[place as usize])
    } else {
        None
    }
}

/// Adds a charge to its campaign's money.
fn add(moneys: &mut Vec<u128>, offer: Charge)
    requires listed { IsCharge (vec_len moneys.old) offer }
    requires few { AreFew (10 ^ 24) moneys.old.items }
    ensures len { vec_len moneys.new ≡ vec_len moneys.old }
    ensures value { (campaign : ℕ) → campaign < vec_len moneys.old
        → slice_index moneys.new.items campaign ≡ slice_index moneys.old.items campaign + charge_for campaign offer }
    ensures few { (campaign : ℕ) → campaign < vec_len moneys.old
        → slice_index moneys.new.items campaign ≤ slice_index moneys.old.items campaign + 10 ^ 12 }
{
    let place = offer.campaign as usize;
    moneys[place] += u128::from(offer.charge.0);
}

/// Adds what an impression's award charges, where it counts.
fn add_row(moneys: &mut Vec<u128>, counting: Counting, row: &ImpRow)
    requires listed { All (IsCharge (vec_len moneys.old)) row.now.offers }
    requires few { AreFew (10 ^ 24) moneys.old.items }
    ensures len { vec_len moneys.new ≡ vec_len moneys.old }
    ensures value { (campaign : ℕ) → campaign < vec_len moneys.old
        → slice_index moneys.new.items campaign ≡ slice_index moneys.old.items campaign + money_in (counts_by counting) campaign row.now }
    ensures few { (campaign : ℕ) → campaign < vec_len moneys.old
        → slice_index moneys.new.items campaign ≤ slice_index moneys.old.items campaign + 10 ^ 12 }
{
    if let Some(offer) = counted(counting, row, moneys.len()) {
        add(moneys, offer);
    }
}

/// The money of each of so many campaigns.
pub(crate) fn moneys_of(
    alloc: Global,
    campaigns: usize,
    imps: &[ImpRow],
) -> Result<Moneys, OutOfMemory>
    requires few { length imps.now < 2 ^ 32 }
    requires listed { All (λ row. All (IsCharge campaigns) row.offers) imps.now }
    ensures { IfOk result (HasMoneys campaigns imps.now) }
{
    let mut committed = vec![in alloc; 0u128; campaigns]?;
    let mut billed = vec![in alloc; 0u128; campaigns]?;
    for row in imps {
        add_row(&mut committed, Counting::Committed, row);
        add_row(&mut billed, Counting::Billed, row);
    }
    Ok(Moneys { committed, billed })
}
