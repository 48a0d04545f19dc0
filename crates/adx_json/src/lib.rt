//! JSON (RFC 8259) as trees: texts read with the place of each fault, and one compact spelling written.
//!
//! A contract sees a value as a `Tree`, without where it lies in memory, and its text as bytes. `read` takes exactly
//! the texts of the grammar with at most 64 levels, and `write` gives one that is read back.
//!
//! What JSON trees say: an object's members by their names in one walk, and what each value is. A reader of an object
//! states its members as a table, a list of `Row`, and its contract as `Reads`: it answers the first fault by the
//! table, or a value with the fields that the table says.
//!
//! Uses `adx_units` and `itoa`.
#![tactic(auto)]

mod fault;
mod front;
mod law;
mod member;
mod named;
mod number;
mod reader;
mod repeats;
mod text;
mod texts;
mod tree;
mod utf8;
mod value;
mod writing;

pub use fault::JsonFault;
pub use law::one_tree;
pub use member::{find_given, find_members, given, members_in};
pub use reader::read;
pub use texts::{are_texts_if_given, texts_in};
pub use tree::{Json, Member};
pub use value::{
    is_absent_or, is_list_if_given, is_number_text, is_object_if_given, is_text_if_given, items_in,
    number_in, text_in, whole_or_zero,
};
pub use writing::{push_comma, push_number, push_value, write};
