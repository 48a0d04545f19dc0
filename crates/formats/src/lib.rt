//! Formats as values: which values have a spelling, which one, and what is read at the front of bytes.
//!
//! A document's grammar is one value of `specs/Formats`, made by combinators whose law comes with them: what is read is
//! spelled so, and what is spelled so is read. The readers and writers here are of the smallest parts: words, whole
//! numbers, lines, and numbers in bytes.
//!
//! The form of a day's text: a year of four digits, a month of two, a day of two, with dashes between them. Whether the
//! calendar has the day isn't asked here.
//!
//! Uses `adx_units`, `arrayvec`, `itoa` and `memchr`.
#![tactic(auto)]

mod fixed;
mod form;
mod front;
mod grouping;
mod line;
mod push;
mod whole;

pub use fixed::{byte, fixed_u16, fixed_u32, fixed_u64};
pub use form::is_day;
pub use front::{behind, byte_behind, is_done};
pub use grouping::{Groups, grouped, groups, push_groups};
pub use line::first_line;
pub use push::{push_number, push_part};
pub use whole::{number, wide_number};
