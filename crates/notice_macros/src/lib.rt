//! The substitution macros of OpenRTB 2.6 in notice URLs and in markup.
//!
//! `expand_url` and `expand_markup` give exactly the expansion that specs/Expansion.antt defines: the
//! template is split at its `$`, each macro of the table becomes its value, and all other text stays.
//! Uses adx_units, memchr, percent_encoding, base64 and itoa.
#![tactic(auto)]

mod expand;
mod law;
mod macros;
mod place;
mod template;
mod values;

pub use expand::{expand_markup, expand_url};
pub use law::piece_by_piece;
pub use place::push_percent_encoded;
pub use values::Values;
