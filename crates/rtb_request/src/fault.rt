//! Why a request is refused.
ghost use Rattle.std.specs.Prelude.{◌≡◌};
ghost use Rattle.rtb_request.specs.Faults.{name_of};
ghost use Rattle.rtb_request.specs.declared.fault.RequestFault.TheVariants.{BadField};

use adx_units::{Id, OutOfMemory};
use std::alloc::AllocFailed;
use std::fmt;

/// A member of a request that a test is about.
#[derive(Clone, Copy, Debug, PartialEq, Eq)]
pub enum Field {
    Cur,
    Wseat,
    Bseat,
    Bcat,
    Badv,
    ImpId,
    ImpBidfloor,
    ImpBidfloorcur,
    ImpPmp,
    PmpPrivateAuction,
    PmpDeals,
    DealId,
    DealBidfloor,
    DealBidfloorcur,
    DealWseat,
    DealWadomain,
}

impl Field {
    /// The member's name behind that of its object, but for a member of the request itself.
    pub fn name(self) -> &'static str
        ensures { result.now ≡ name_of self }
    {
        match self {
            Field::Cur => "cur",
            Field::Wseat => "wseat",
            Field::Bseat => "bseat",
            Field::Bcat => "bcat",
            Field::Badv => "badv",
            Field::ImpId => "imp.id",
            Field::ImpBidfloor => "imp.bidfloor",
            Field::ImpBidfloorcur => "imp.bidfloorcur",
            Field::ImpPmp => "imp.pmp",
            Field::PmpPrivateAuction => "pmp.private_auction",
            Field::PmpDeals => "pmp.deals",
            Field::DealId => "deal.id",
            Field::DealBidfloor => "deal.bidfloor",
            Field::DealBidfloorcur => "deal.bidfloorcur",
            Field::DealWseat => "deal.wseat",
            Field::DealWadomain => "deal.wadomain",
        }
    }
}

/// Why a request is refused: the first test that fails, in the order in which the tests are read, or want of memory.
#[derive(Debug, Drop)]
pub enum RequestFault {
    /// No object, or no id of 1 to 128 bytes.
    NoId,
    /// No list of impressions, or an empty one.
    NoImp,
    /// More than 16 impressions.
    TooManyImps,
    /// A second impression with an id.
    RepeatedImp { id: Id },
    /// A member that isn't of its form.
    BadField { field: Field },
    /// Memory was refused.
    OutOfMemory,
}

impl fmt::Display for RequestFault {
    fn fmt<W: fmt::Write>(&self, f: &mut fmt::Formatter<W>) -> fmt::Result {
        match self {
            RequestFault::NoId => f.write_str("no id of 1 to 128 bytes"),
            RequestFault::NoImp => f.write_str("no impression"),
            RequestFault::TooManyImps => f.write_str("more than 16 impressions"),
            RequestFault::RepeatedImp { id } => {
                f.write_str("a second impression ")?;
                f.write_str(id.as_str())
            }
            RequestFault::BadField { field } => {
                f.write_str("not of its form: ")?;
                f.write_str(field.name())
            }
            RequestFault::OutOfMemory => f.write_str("out of memory"),
        }
    }
}

impl std::error::Error for RequestFault {}

/// The fault of a member that isn't of its form.
pub(crate) fn bad_field(field: Field) -> RequestFault
    ensures { result ≡ BadField field }
{
    RequestFault::BadField { field }
}

impl From<OutOfMemory> for RequestFault {
    ghost use Rattle.std.specs.Prelude.{◌≡◌};
    ghost use Rattle.rtb_request.specs.declared.fault.RequestFault.TheVariants.{OutOfMemory};

    ghost from_gives = { λ _ e. e ≡ OutOfMemory };

    fn from(_refused: OutOfMemory) -> RequestFault {
        RequestFault::OutOfMemory
    }
}

impl<T: Drop> From<AllocFailed<T>> for RequestFault {
    ghost use Rattle.std.specs.Prelude.{◌≡◌};
    ghost use Rattle.rtb_request.specs.declared.fault.RequestFault.TheVariants.{OutOfMemory};

    ghost from_gives = { λ _ e. e ≡ OutOfMemory };

    fn from(_refused: AllocFailed<T>) -> RequestFault {
        RequestFault::OutOfMemory
    }
}
