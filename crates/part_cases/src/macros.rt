//! Values that are put into templates.
use adx_units::Units;
use notice_macros::Values;

/// With a price, and no `adid`.
pub(crate) const SOLD: Values<'static> = Values {
    auction: "a/1",
    bidid: "b-._~ +",
    imp: "1",
    seat: "s1",
    adid: "",
    price: Some(Units(2_500_000)),
    loss: 0,
};

/// Without a price, and with values that look like macros or hold more than ASCII.
pub(crate) const LOST: Values<'static> = Values {
    auction: "a/1",
    bidid: "b-._~ +",
    imp: "1",
    seat: "${AUCTION_PRICE}",
    adid: "é",
    price: None,
    loss: 102,
};
