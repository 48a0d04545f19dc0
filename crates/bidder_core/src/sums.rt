//! The sum of the bills at one price.
ghost use Rattle.std.specs.Prelude.{◌≡◌, ◌+◌, ◌-◌, ◌*◌, ◌^◌, ◌<◌, ◌≤◌, IfOk, length, replicate, slice_index_or};
ghost use Rattle.bidder_core.specs.LedgerState.{no_bill, summed_by};

use adx_units::{OutOfMemory, Units};
use notice_book::NoticeKind;
use std::alloc::Global;

/// The sum of the bills at a price, and their number.
#[derive(Clone, Copy)]
pub(crate) struct BillSum {
    /// In units.
    pub(crate) billed: u128,
    pub(crate) count: u64,
}

/// So many sums without a bill.
pub(crate) fn no_bills(alloc: Global, prices: usize) -> Result<Vec<BillSum>, OutOfMemory>
    ensures { IfOk result (λ sums. sums.items ≡ replicate prices no_bill) }
{
    let none = BillSum {
        billed: 0,
        count: 0,
    };
    let mut sums = Vec::new(alloc);
    sums.resize(prices, none)?;
    Ok(sums)
}

/// The sum at a place.
pub(crate) fn sum_at(sums: &[BillSum], place: usize) -> BillSum
    requires { place < length sums.now }
    ensures { result ≡ slice_index_or sums.now place no_bill }
{
    sums[place]
}

/// The sum after a notice that counts.
pub(crate) fn summed(sum: BillSum, kind: NoticeKind, price: Units) -> BillSum
    requires few { sum.count + 1 < 2 ^ 64 }
    requires low { sum.billed ≤ sum.count * (2 ^ 64 - 1) }
    ensures value { result ≡ summed_by kind price.0 sum }
    ensures low { result.billed ≤ result.count * (2 ^ 64 - 1) }
{
    match kind {
        NoticeKind::Win | NoticeKind::Loss => sum,
        NoticeKind::Bill => BillSum {
            billed: sum.billed + u128::from(price.0),
            count: sum.count + 1,
        },
    }
}
