//! Why a connection can't go on.

/// Why a connection can't go on.
#[derive(Clone, Copy, Debug, PartialEq, Eq)]
pub(crate) enum Stop {
    /// The sink failed.
    WriteFault,
    /// Memory was refused.
    OutOfMemory,
    /// The source failed, with all replies put.
    ReadFault,
}
