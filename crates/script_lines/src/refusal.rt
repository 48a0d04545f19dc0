//! Why lines are refused.
use adx_json::JsonFault;
use adx_units::OutOfMemory;
use deal_floor::RosterFault;
use rtb_request::RequestFault;

/// Why a line of a script is refused. The day goes on as if it hadn't come.
#[derive(Debug, Drop)]
pub enum Refusal {
    /// The input ends before the line's newline.
    Cut,
    /// The line is longer than a line may be.
    Long,
    /// The line is no JSON text. The fault isn't want of memory.
    Json {
        /// What breaks the text, and where.
        fault: JsonFault,
    },
    /// The value is neither an ask, a notice, a tick nor a change of a budget of its form.
    NoCall,
    /// The request for bids is none. The fault isn't want of memory.
    Request {
        /// The first fault of the request.
        fault: RequestFault,
    },
}

/// Why a line gives no call.
#[derive(Debug, Drop)]
pub enum LineFault {
    /// The line is refused.
    Refused {
        /// Why.
        why: Refusal,
    },
    /// Memory was refused.
    OutOfMemory,
}

/// Why the first line isn't a roster.
#[derive(Clone, Copy, Debug, PartialEq, Eq)]
pub enum RosterRefusal {
    /// The input ends before the line's newline.
    Cut,
    /// The line is longer than a line may be.
    Long,
    /// The line is no JSON text. The fault isn't want of memory.
    Json {
        /// What breaks the text, and where.
        fault: JsonFault,
    },
    /// A member isn't of its form. The fault isn't want of memory.
    Member {
        /// The first fault of the roster.
        fault: RosterFault,
    },
}

/// Why the first line gives no roster.
#[derive(Clone, Copy, Debug, PartialEq, Eq)]
pub enum RosterLineFault {
    /// The line is refused.
    Refused {
        /// Why.
        why: RosterRefusal,
    },
    /// Memory was refused.
    OutOfMemory,
}

impl From<OutOfMemory> for LineFault {
    ghost use Rattle.std.specs.Prelude.{◌≡◌};
    ghost use Rattle.script_lines.specs.declared.refusal.LineFault.TheVariants.{OutOfMemory};

    ghost from_gives = { λ _ e. e ≡ OutOfMemory };

    fn from(_refused: OutOfMemory) -> LineFault {
        LineFault::OutOfMemory
    }
}
