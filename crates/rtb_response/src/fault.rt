//! Why an answer gives no bids.
use adx_units::OutOfMemory;
use std::alloc::AllocFailed;

/// A member of an answer that a test is about.
#[derive(Clone, Copy, Debug, PartialEq, Eq)]
pub enum Field {
    /// `seatbid`, which isn't a list.
    Seatbid,
    /// An element of `seatbid` that isn't an object with a list `bid`.
    SeatbidBid,
}

/// Why an answer gives no bids: the first test that fails, or want of memory.
#[derive(Clone, Copy, Debug, PartialEq, Eq)]
pub enum AnswerFault {
    /// No object, or no text as its `id`.
    NoId,
    /// The id of another request.
    OtherId,
    /// A `cur` that isn't the text USD.
    OtherCurrency,
    /// A member that isn't of its form.
    BadField { field: Field },
    /// More than 64 bids over all seats.
    TooManyBids,
    /// Memory was refused.
    OutOfMemory,
}

impl From<OutOfMemory> for AnswerFault {
    ghost use Rattle.std.specs.Prelude.{◌≡◌};
    ghost use Rattle.rtb_response.specs.declared.fault.AnswerFault.TheVariants.{OutOfMemory};

    ghost from_gives = { λ _ e. e ≡ OutOfMemory };

    fn from(_refused: OutOfMemory) -> AnswerFault {
        AnswerFault::OutOfMemory
    }
}
