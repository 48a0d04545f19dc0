//! The macros of OpenRTB 2.6, section 4.4.
ghost use Rattle.std.specs.Prelude.{◌≡◌};
ghost use Rattle.notice_macros.specs.Macros.{name_of as name_of_text, macro_of as macro_of_text, in_form as in_form_of};

use crate::template::cut_at;

/// What a macro asks for: one variant for each row of the standard's table.
#[derive(Clone, Copy, Debug, PartialEq, Eq)]
pub(crate) enum Name {
    /// `AUCTION_ID`: the id of the bid request, from `BidRequest.id`.
    AuctionId,
    /// `AUCTION_BID_ID`: the id of the bid, from `BidResponse.bidid`.
    BidId,
    /// `AUCTION_IMP_ID`: the id of the impression just won, from `Imp.id`.
    ImpId,
    /// `AUCTION_SEAT_ID`: the id of the bidder seat for whom the bid was made.
    SeatId,
    /// `AUCTION_AD_ID`: the id of the ad markup the bidder wishes to serve, from `Bid.adid`.
    AdId,
    /// `AUCTION_PRICE`: the clearing price, in the same currency and units as the bid. Here the charge.
    Price,
    /// `AUCTION_CURRENCY`: the currency used in the bid, explicit or implied, for confirmation only. Here USD.
    Currency,
    /// `AUCTION_MBR`: the market bid ratio, clearance price over bid price. Here nothing is put in for it.
    MarketBidRatio,
    /// `AUCTION_LOSS`: the loss reason code (AdCOM 1.0, Loss Reason Codes).
    Loss,
    /// `AUCTION_MIN_TO_WIN`: the least bid that would have won the exchange's auction. Here nothing is put in for it.
    MinToWin,
}

/// How a macro's value is written.
#[derive(Clone, Copy, Debug, PartialEq, Eq)]
pub(crate) enum Form {
    /// As it is.
    Plain,
    /// In Base64, by the suffix `:B64`, the standard's example of a coding that two sides agree on.
    Base64,
}

/// A macro as a template asks for it.
#[derive(Clone, Copy, Debug, PartialEq, Eq)]
pub(crate) struct Macro {
    pub name: Name,
    pub form: Form,
}

/// The row of the table with that name.
fn name_of(text: &str) -> Option<Name>
    ensures { result ≡ name_of_text text.now }
{
    match text {
        "AUCTION_ID" => Some(Name::AuctionId),
        "AUCTION_BID_ID" => Some(Name::BidId),
        "AUCTION_IMP_ID" => Some(Name::ImpId),
        "AUCTION_SEAT_ID" => Some(Name::SeatId),
        "AUCTION_AD_ID" => Some(Name::AdId),
        "AUCTION_PRICE" => Some(Name::Price),
        "AUCTION_CURRENCY" => Some(Name::Currency),
        "AUCTION_MBR" => Some(Name::MarketBidRatio),
        "AUCTION_LOSS" => Some(Name::Loss),
        "AUCTION_MIN_TO_WIN" => Some(Name::MinToWin),
        _ => None,
    }
}

/// The macro of that name in a form.
fn in_form(form: Form, text: &str) -> Option<Macro>
    ensures { result ≡ in_form_of form (name_of_text text.now) }
{
    let name = name_of(text)?;
    Some(Macro { name, form })
}

/// The macro that is written so between the braces.
pub(crate) fn macro_of(text: &str) -> Option<Macro>
    ensures { result ≡ macro_of_text text.now }
{
    match cut_at(text, b':') {
        None => in_form(Form::Plain, text),
        Some((name, suffix)) => {
            if suffix == "B64" {
                in_form(Form::Base64, name)
            } else {
                None
            }
        }
    }
}
