//! A bill of an award.
ghost use Rattle.std.specs.Prelude.{◌≡◌};
ghost use Rattle.command_reconcile.specs.Differences.{bill_cmp, is_same as is_same_bill};

use adx_units::{Id, Units};
use std::cmp::Ordering;

/// A bill: the auction that it is about, and its price.
#[derive(Debug, Drop)]
pub struct Bill {
    /// The request's id (OpenRTB 2.6, BidRequest).
    pub auction: Id,
    /// In units of 10^-6 CPM dollar.
    pub price: Units,
}

/// By the bytes of the auction, and then by the price.
pub(crate) fn compare(a: &Bill, b: &Bill) -> Ordering
    ensures { result ≡ bill_cmp a.now b.now }
{
    a.auction
        .as_bytes()
        .cmp(b.auction.as_bytes())
        .then(a.price.0.cmp(&b.price.0))
}

/// Whether two bills are of one auction and price.
pub(crate) fn is_same(a: &Bill, b: &Bill) -> bool
    ensures { result ≡ is_same_bill a.now b.now }
{
    a.auction.as_bytes() == b.auction.as_bytes() && a.price.0 == b.price.0
}
