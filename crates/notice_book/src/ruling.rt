//! What becomes of a notice.
use crate::award::End;

/// What becomes of a notice of an award.
#[derive(Clone, Copy, Debug, PartialEq, Eq)]
pub enum Ruling {
    /// It is new and counts.
    Counted,
    /// It came before and changes nothing.
    Repeat,
    /// It comes too late: the award has this end.
    Conflict(End),
}
