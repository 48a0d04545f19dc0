//! The last error of a stream or a file as words.
use crate::told::Told;
use std::fmt;
use std::fmt::Display;

/// What the system said last; `failed` where it gave no reason.
#[derive(Drop)]
pub struct Reason<'a>(pub &'a Told);

impl<'a> Display for Reason<'a> {
    fn fmt<W: fmt::Write>(&self, f: &mut fmt::Formatter<W>) -> fmt::Result {
        match self.0.last() {
            Some(error) => error.fmt(f),
            None => f.write_str("failed"),
        }
    }
}
