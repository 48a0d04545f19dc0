//! Entries of a day's history as bytes: written into a record's payload, and read back.
//!
//! A contract sees the spelling of an entry as a list of bytes, in the format of its journal. What is read is spelled
//! so, each byte of it; what is spelled so is read, whatever follows. An ask can be copied, since a history keeps its
//! own.
//!
//! Uses `adx_units`, `adx_io`, `day_rules`, `formats` and `arrayvec`.
#![tactic(auto)]

mod copying;
mod fields;
mod gathering;
mod numbers;
mod reading;
mod unread;
mod writing;

pub use copying::copy_of;
pub use reading::decode;
pub use writing::encode;
