//! Why a line gives no bidder.
use script_lines::RosterRefusal;

/// Why a line gives no bidder.
#[derive(Clone, Copy, Debug, PartialEq, Eq)]
pub enum PricesFault {
    /// It is no price line.
    Refused {
        /// Why it is none.
        why: RosterRefusal,
    },
    /// Memory was refused.
    OutOfMemory,
}
