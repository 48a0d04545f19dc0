//! The command that checks a certificate against its record.
//!
//! A document is a record with a certificate after it. `check_input` reads one and says in a line whether the certificate
//! is accepted, and with which bound, or the first rule that fails, or the first line that isn't of the document's form.
//! Stands on `cert_check` for the rules and on `command_runs` for the run. It knows no day that was served, and nothing
//! that makes a certificate.
#![tactic(auto)]

mod check;
mod document;
mod fault;
mod input;
mod lines;
mod reading;

pub use check::Check;
pub use document::{Checked, check_document};
pub use fault::DocumentFault;
pub use input::check_input;
