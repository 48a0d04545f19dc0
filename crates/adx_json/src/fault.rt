//! Why bytes weren't read.
use adx_units::OutOfMemory;
use std::alloc::{AllocError, AllocFailed};
use std::fmt;

/// Why bytes are no JSON text (RFC 8259), and where: `at` is the length of the longest prefix that some text
/// with at most 64 levels begins with.
#[derive(Clone, Copy, Debug, PartialEq, Eq)]
pub enum JsonFault {
    /// The byte there, or the end of the bytes, can't follow.
    Syntax {
        /// The length of the longest prefix.
        at: u64,
    },
    /// Within a string a byte there breaks its UTF-8, or the prefix ends within a character.
    Utf8 {
        /// The length of the longest prefix.
        at: u64,
    },
    /// The bracket or brace there would begin level 65.
    Depth {
        /// The length of the longest prefix.
        at: u64,
    },
    /// Memory was refused.
    OutOfMemory,
}

impl fmt::Display for JsonFault {
    fn fmt<W: fmt::Write>(&self, f: &mut fmt::Formatter<W>) -> fmt::Result {
        match self {
            JsonFault::Syntax { at } => write!(f, "no JSON from byte {at} on"),
            JsonFault::Utf8 { at } => write!(f, "no UTF-8 from byte {at} on"),
            JsonFault::Depth { at } => write!(f, "more than 64 levels from byte {at} on"),
            JsonFault::OutOfMemory => f.write_str("out of memory"),
        }
    }
}

impl std::error::Error for JsonFault {}

/// A fault, by how many bytes are left where it is.
#[derive(Clone, Copy, Debug, PartialEq, Eq)]
pub(crate) enum Stop {
    Syntax(usize),
    Utf8(usize),
    Depth(usize),
    OutOfMemory,
}

impl From<OutOfMemory> for Stop {
    ghost use Rattle.std.specs.Prelude.{◌≡◌};
    ghost use Rattle.adx_json.specs.declared.fault.Stop.TheVariants as stops;

    ghost from_gives = { λ _ e. e ≡ stops.OutOfMemory };

    fn from(_refused: OutOfMemory) -> Stop {
        Stop::OutOfMemory
    }
}

impl<T: Drop> From<AllocFailed<T>> for Stop {
    ghost use Rattle.std.specs.Prelude.{◌≡◌};
    ghost use Rattle.adx_json.specs.declared.fault.Stop.TheVariants as stops;

    ghost from_gives = { λ _ e. e ≡ stops.OutOfMemory };

    fn from(_refused: AllocFailed<T>) -> Stop {
        Stop::OutOfMemory
    }
}

impl From<AllocError> for Stop {
    ghost use Rattle.std.specs.Prelude.{◌≡◌};
    ghost use Rattle.adx_json.specs.declared.fault.Stop.TheVariants as stops;

    ghost from_gives = { λ _ e. e ≡ stops.OutOfMemory };

    fn from(_refused: AllocError) -> Stop {
        Stop::OutOfMemory
    }
}
