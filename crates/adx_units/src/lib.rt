//! The units, names and small types that every other crate shares.
//!
//! A contract sees a `Text` or an `Id` as its bytes, and a `Sequence` as the list of its items, so that no statement
//! above speaks of buffers or capacities.
//!
//! Names that are looked up among many others. A contract sees the lists of names alone: `any_among` and `all_among`
//! say what comparing each with each reports, and a `NameSet` whether it has a name.
//!
//! Bytes looked through sixteen at a time. `unescaped_len` is how many bytes of ASCII a JSON text (RFC 8259, section 7)
//! may have as themselves before the first one that it may not, and `bare_len` how many bytes of any kind; a contract
//! says it as the length of the longest such front. `push_text` puts a text as JSON spells it. `utf8_text` is the text
//! that bytes are, where they are UTF-8.
//!
//! Uses `arrayvec`.
#![tactic(auto)]

mod among;
mod array_text;
mod ascii;
mod counted;
mod escape;
mod id;
mod memory;
mod name_set;
mod names;
mod numeral;
mod offer;
mod price;
mod price_text;
mod scale;
mod sequence;
mod text;
mod unescaped;
mod units;
mod utf8;
mod whole;

pub use among::{all_among, any_among, is_among};
pub use array_text::ArrayText;
pub use counted::Counted;
pub use escape::{bare_len, push_text};
pub use id::{Id, LONGEST_ID};
pub use memory::OutOfMemory;
pub use name_set::NameSet;
pub use offer::{ADMITTED, Offer};
pub use price::{BUDGET_LIMIT, PRICE_LIMIT, PriceFault, budget_of, floor_of, price_of};
pub use price_text::write_price;
pub use sequence::Sequence;
pub use text::Text;
pub use unescaped::unescaped_len;
pub use units::Units;
pub use utf8::utf8_text;
pub use whole::whole_up_to;
