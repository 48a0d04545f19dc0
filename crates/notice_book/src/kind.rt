//! The kinds of notices.
/// What a bidder's notice says of an award.
#[derive(Clone, Copy, Debug, PartialEq, Eq)]
pub enum NoticeKind {
    /// The award was won (OpenRTB 2.6, Bid, nurl).
    Win,
    /// The award is billed (OpenRTB 2.6, Bid, burl).
    Bill,
    /// The award was lost (OpenRTB 2.6, Bid, lurl).
    Loss,
}
