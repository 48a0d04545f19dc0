//! Why bytes are no document.

/// Why bytes are no document. The first line that fails counts; lines count from 1, and those of the certificate count on
/// from the record's.
#[derive(Clone, Copy, Debug, PartialEq, Eq)]
pub enum DocumentFault {
    /// The bytes end before the last line does.
    Cut,
    /// The bytes pass the limit of a document, and no line within it fails.
    Long,
    /// The line isn't of a form that may stand there.
    Line { n: u64 },
    /// The index of a record's line doesn't run on.
    Order { n: u64 },
    /// A record's line names a campaign that isn't listed, or a chosen offer past the end.
    Campaign { n: u64 },
}
