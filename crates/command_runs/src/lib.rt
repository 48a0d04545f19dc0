//! How a command runs from an input to an output.
//!
//! A `Command` reads an input and writes an output; `run_command` runs it over a source and a sink. Its meaning is what
//! it writes for the bytes that it took, by how the run ended (`specs/Meanings`). Two kinds of command have a trait of
//! their own: `Led` reads a first line, `Judge` reads one document whole. What a command means that answers line by
//! line is in `specs/Scripts`. A run ends with an `Outcome`, or with the `Stop` of its source, its sink or its
//! memory, and has one exit status. It knows no format, no day and no disk.
//!
//! The first line of a document that is at hand whole. `line_of` gives the first line where it is within the limit of a
//! line, or why there is none. What comes after the line isn't looked at.
//!
//! Uses `adx_units`, `adx_io` and `formats`.
#![tactic(auto)]

mod command;
mod document;
mod first;
mod limits;
mod line;
mod outcome;
mod put;
mod through;

pub use command::{Command, run_command};
pub use document::{Document, Judge, run_document};
pub use first::{FirstLine, Led, NoLine, run_led};
pub use limits::{DOCUMENT_LIMIT, INPUT_LIMIT, LINE_LIMIT};
pub use line::line_of;
pub use outcome::{Outcome, status_of};
pub use put::put_end;
pub use through::skip_rest;
