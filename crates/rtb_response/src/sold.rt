//! An award as the exchange's answer tells it.
use adx_json::Json;
use adx_units::{Id, Text, Units};

/// One award of an auction, with what the exchange's answer says of it.
#[derive(Debug, Drop)]
pub struct Sold {
    /// The award's number, which becomes the bid's `id`.
    pub award: u32,
    /// The impression that is sold.
    pub imp: Id,
    /// The seat of the campaign.
    pub seat: Text,
    /// The charge, in units of 10^-6 CPM dollar.
    pub charge: Units,
    /// The bid's body, with the macros of `adm` expanded already: its members but for those that the exchange writes
    /// itself are passed on. A tree that is no object has none.
    pub body: Json,
}
