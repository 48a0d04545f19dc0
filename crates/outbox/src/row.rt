//! What is kept of an award that may still give a post.
ghost use Rattle.std.specs.Prelude.{◌≡◌, ◌&&◌, ◌||◌, not, IfOk, Option, length, ◌==◌};
ghost use Rattle.notice_macros.specs.Expansion.{url_expansion};
ghost use Rattle.outbox.specs.Rows.{is_some_text, row_values, AreValues, may_be_told, may_be_ended};

use adx_units::{OutOfMemory, Text, Units};
use notice_macros::{Values, expand_url};
use std::alloc::Global;

/// The bid of an award, as its notices need it, each text once.
#[derive(Debug, Drop)]
pub struct Row {
    /// The request's id (OpenRTB 2.6, BidRequest).
    pub auction: Text,
    /// The impression's id (OpenRTB 2.6, Imp).
    pub imp: Text,
    /// The buyer's seat (OpenRTB 2.6, SeatBid, seat).
    pub seat: Text,
    /// The answer's own id (OpenRTB 2.6, BidResponse, bidid); may be empty.
    pub bidid: Text,
    /// The ad's id (OpenRTB 2.6, Bid, adid); may be empty.
    pub adid: Text,
    /// Where its win is told; may be empty.
    pub nurl: Text,
    /// Where its bill is told; may be empty.
    pub burl: Text,
    /// Where its loss is told; may be empty.
    pub lurl: Text,
    /// What its campaign pays, in units of 10^-6 CPM dollar.
    pub charge: Units,
    /// The last moment, in seconds, at which it is still open.
    pub deadline: u64,
    /// Whether its win was counted.
    pub won: bool,
}

/// Whether there is a text.
pub(crate) fn is_some_text(text: &Text) -> bool
    ensures { result ≡ is_some_text text.now }
{
    !text.as_bytes().is_empty()
}

impl Row {
    /// Whether a win may still be told.
    pub(crate) fn may_be_told(&self) -> bool
        ensures { result ≡ may_be_told self.now }
    {
        !self.won && is_some_text(&self.nurl)
    }

    /// Whether what ends the award while it is open may ask for a post.
    pub(crate) fn may_be_ended(&self) -> bool
        ensures { result ≡ may_be_ended self.now }
    {
        is_some_text(&self.burl) || is_some_text(&self.lurl)
    }

    /// What the macros of its URLs stand for.
    fn values(&self, price: Option<Units>, loss: u16) -> Values<'_>
        ensures { AreValues result self.entry.now price loss }
    {
        Values {
            auction: self.auction.as_str(),
            bidid: self.bidid.as_str(),
            imp: self.imp.as_str(),
            seat: self.seat.as_str(),
            adid: self.adid.as_str(),
            price,
            loss,
        }
    }

    /// One of its URLs, with its macros replaced.
    pub(crate) fn url(
        &self,
        alloc: Global,
        template: &str,
        price: Option<Units>,
        loss: u16,
    ) -> Result<Text, OutOfMemory>
        ensures { IfOk result (λ t. t ≡ url_expansion (row_values self.entry.now price loss) template.now) }
    {
        expand_url(alloc, template, &self.values(price, loss))
    }
}
