//! What is kept of a call on a desk that threads share.
use crate::fault::DeskFault;
use adx_units::{Text, Units};
use day_rules::{Answer, Ask, Entry};
use notice_book::NoticeKind;

/// What a desk is asked.
#[derive(Debug, Drop)]
pub enum Call {
    /// An ask, whose bids aren't decided.
    Ask(Ask),
    /// A notice of an award of an auction, as a bidder's nurl, burl or lurl gives it (OpenRTB 2.6, Bid).
    Notice {
        /// What is noticed of the award: its win, its bill or its loss.
        kind: NoticeKind,
        /// The id of the auction that the notice names, which is perhaps no auction of the award.
        auction: Text,
        /// The number of the award, from 0 in the order in which a history's asks made them; perhaps of none.
        award: u32,
    },
    /// That it is this moment.
    Tick {
        /// The moment in seconds, below 2^63.
        now: u64,
    },
    /// A change of a campaign's budget.
    Budget {
        /// The place of the campaign in the roster, from 0; perhaps of none.
        campaign: u32,
        /// The number of the change, at least 1; the accepted ones of a campaign rise.
        change: u32,
        /// The budget from then on, in units.
        budget: Units,
    },
}

/// A call, how it ended, and the entry that it added.
#[derive(Debug, Drop)]
pub struct Turn {
    /// What the desk was asked.
    pub call: Call,
    /// The desk's answer, or the fault that gave the call up and left the history as it was.
    pub ended: Result<Answer, DeskFault>,
    /// The entry that the history has of the call; None where the answer adds none, and after a fault.
    pub entry: Option<Entry>,
}
