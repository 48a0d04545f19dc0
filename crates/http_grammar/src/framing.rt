//! How the fields of a message frame its body.

/// How the fields of a message frame its body.
#[derive(Clone, Copy, Debug, PartialEq, Eq)]
pub enum Framing {
    /// By neither a length nor chunks.
    Unframed,
    /// By chunks (RFC 9112, section 7.1).
    Chunked,
    /// By a length in bytes.
    Sized(usize),
}
