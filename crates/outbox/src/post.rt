//! Posts: the notices of the exchange to its bidders.
use adx_units::Text;

/// The loss number of an award whose deadline passed (AdCOM 1.0, Loss Reason Codes: impression
/// opportunity expired).
pub const OPPORTUNITY_EXPIRED: u16 = 2;

/// Which notice URL of a bid a post is (OpenRTB 2.6, Bid).
#[derive(Clone, Copy, Debug, PartialEq, Eq)]
pub enum PostKind {
    /// Its win is told.
    Nurl,
    /// Its bill is told.
    Burl,
    /// Its loss is told.
    Lurl,
}

/// A notice that a bidder is to get: a URL that is to be fetched.
#[derive(Debug, Drop)]
pub struct Post {
    /// The place of the entry that asks for it in the history, from 0.
    pub entry: u64,
    /// Which URL of the bid it is.
    pub kind: PostKind,
    /// The URL, with its macros replaced.
    pub url: Text,
}
