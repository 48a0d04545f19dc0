//! Lists of texts.
ghost use Rattle.std.specs.Prelude.{◌≡◌, option_map, IfOk};
ghost use Rattle.adx_json.specs.View.{tree_of};
ghost use Rattle.std.specs.List.{list_all};
ghost use Rattle.adx_json.specs.Values.{texts_in as texts_by, are_texts_if_given as are_texts_by, is_text_tree};

use crate::tree::Json;
use crate::value::{is_list_if_given, items_in, text_in};
use adx_units::{OutOfMemory, Sequence, Text};
use std::alloc::Global;

/// Whether a value is absent or a list whose items are texts.
#[tactic(auto, using(crate::proofs::Items::all_texts))]
pub fn are_texts_if_given(value: Option<&Json>) -> bool
    ensures { result ≡ are_texts_by (option_map (λ t. tree_of t.now) value.entry) }
{
    is_list_if_given(value) && only_texts(items_in(value))
}

fn only_texts(items: &[Json]) -> bool
    ensures { result ≡ list_all (λ t. is_text_tree (tree_of t)) items.now }
{
    items.iter().all(|item| text_in(Some(item)).is_some())
}

/// Copies of the texts in a list, in their order; items that are no texts don't count. Empty where the value is absent
/// or no list.
pub fn texts_in(alloc: Global, value: Option<&Json>) -> Result<Sequence<Text>, OutOfMemory>
    ensures { IfOk result (λ ts. ts ≡ texts_by (option_map (λ t. tree_of t.now) value.entry)) }
{
    let mut texts = Vec::new(alloc);
    for item in items_in(value) {
        if let Some(text) = text_in(Some(item)) {
            texts.push(text.copy(alloc)?)?;
        }
    }
    Ok(Sequence::from(texts))
}
