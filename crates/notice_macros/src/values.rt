//! The values that macros represent.
use adx_units::Units;

/// What is put in for the macros of a template (OpenRTB 2.6, section 4.4). Nothing is put in for an empty
/// text, as the standard has it for an attribute that wasn't specified.
#[derive(Clone, Copy, Debug)]
pub struct Values<'a> {
    /// The id of the bid request.
    pub auction: &'a str,
    /// The `bidid` of the answer that the bid is in.
    pub bidid: &'a str,
    /// The id of the impression.
    pub imp: &'a str,
    /// The id of the bidder's seat for which the bid was made.
    pub seat: &'a str,
    /// The bid's `adid`, the id of its ad markup.
    pub adid: &'a str,
    /// The charge, in units of 10^-6 CPM dollar. Nothing is put in where there is none.
    pub price: Option<Units>,
    /// The loss reason; 0 in a win, a bill and markup.
    pub loss: u16,
}
