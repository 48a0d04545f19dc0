//! The numbers of the guarantee.
ghost use Rattle.std.specs.Prelude.{◌≡◌, ◌*◌, ◌^◌, ◌<◌, ◌≤◌, IfOk, IsTrue, length};
ghost use Rattle.day_close.specs.Choosing.{IsChosenByRule};
ghost use Rattle.day_close.specs.Closing.{IsWithinBudgets};
ghost use Rattle.dual_cert.specs.Assignments.{Assignment, earned};
ghost use Rattle.ratio_law.specs.SmallDays.{IsBoundOf, committed_of as committed_by, greatest_of as greatest_by, is_small as is_small_day, left_of, right_of};

use crate::money::{committed_of, greatest_of};
use crate::sides::Ratio;
use crate::small::is_small;
use adx_units::OutOfMemory;
use bid_record::Record;
use campaign_book::DECLINE;
use day_close::close;
use dual_cert::WHOLE;
use std::alloc::Global;

/// How often the bound counts on the left side.
const BOUND_PARTS: u128 = 9_999;

/// How often the committed money, times the decline, counts on the right side.
const MONEY_PARTS: u128 = 10_099;

/// The numbers of a day's guarantee: in time in proportion to the record's offers.
pub fn ratio(alloc: Global, day: &Record) -> Result<Ratio, OutOfMemory>
    // The money of the day's billed and open awards is within each budget.
    requires { IsWithinBudgets day.now }
    ensures small { IfOk result (λ x. x.small ≡ is_small_day day.now) }
    ensures committed { IfOk result (λ x. x.committed ≡ committed_by day.now) }
    ensures greatest { IfOk result (λ x. x.greatest ≡ greatest_by day.now) }
    ensures imps { IfOk result (λ x. x.imps ≡ length day.now.imps) }
    ensures bound { IfOk result (λ x. IsBoundOf day.now x.bound) }
    ensures left { IfOk result (λ x. x.left ≡ left_of x.bound) }
    ensures right { IfOk result (λ x. x.right ≡ right_of x.committed x.greatest x.imps) }
    // The revenue guarantee.
    ensures guarantee { IfOk result (λ x. IsChosenByRule day.now → IsTrue x.small → x.left ≤ x.right) }
    // No assignment of the impressions earns more than the bound, so that none earns more than the right side allows.
    ensures hindsight { IfOk result (λ x. (picks : Assignment) → earned picks day.now ≤ x.bound) }
    ensures within { IfOk result (λ x. IsChosenByRule day.now → IsTrue x.small
        → (picks : Assignment) → left_of (earned picks day.now) ≤ x.right) }
{
    let bound = bound_of(alloc, day)?;
    let committed = committed_of(alloc, day)?;
    let greatest = greatest_of(alloc, day)?;
    let imps = day.imps.len() as u64;
    Ok(Ratio {
        small: is_small(day),
        committed,
        greatest,
        imps,
        bound,
        left: left_side(bound),
        right: right_side(committed, greatest, imps),
    })
}

/// The closer's bound.
fn bound_of(alloc: Global, day: &Record) -> Result<u128, OutOfMemory>
    requires { IsWithinBudgets day.now }
    ensures closing { IfOk result (λ bound. IsBoundOf day.now bound) }
    ensures small { IfOk result (λ bound. bound ≤ 10 ^ 22) }
{
    let cert = close(alloc, day)?;
    Ok(cert.bound)
}

/// The left side of the guarantee.
fn left_side(bound: u128) -> u128
    requires { bound ≤ 10 ^ 22 }
    ensures { result ≡ left_of bound }
{
    BOUND_PARTS * u128::from(WHOLE) * bound
}

/// The right side of the guarantee.
fn right_side(committed: u64, greatest: u64, imps: u64) -> u128
    ensures { result ≡ right_of committed greatest imps }
{
    MONEY_PARTS * u128::from(DECLINE) * u128::from(committed)
        + BOUND_PARTS * u128::from(WHOLE) * (u128::from(greatest) + u128::from(imps))
}
