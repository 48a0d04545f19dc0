//! What bidders answer in a run without a network: lists of texts.
ghost use Rattle.std.specs.Prelude.{◌≡◌, map, length, Some, IfOk};
ghost use Rattle.std.specs.List.{list_all};
ghost use Rattle.adx_json.specs.View.{tree_of, trees_of};
ghost use Rattle.adx_json.specs.Values.{texts_in as texts_by};
ghost use Rattle.deal_floor.specs.Rosters.{are_texts};

use adx_json::{Json, are_texts_if_given, texts_in};
use adx_units::{OutOfMemory, Sequence, Text};
use std::alloc::Global;

/// Whether each value is a list of texts.
#[tactic(auto, using(crate::proofs::ReplySteps::all_replies))]
pub(crate) fn are_replies(trees: &[Json]) -> bool
    ensures { result ≡ list_all are_texts (trees_of trees.now) }
{
    all_are_texts(trees)
}

fn all_are_texts(trees: &[Json]) -> bool
    ensures { result ≡ list_all (λ t. are_texts (tree_of t)) trees.now }
{
    trees.iter().all(|tree| are_texts_if_given(Some(tree)))
}

/// Copies of the texts of each list.
pub(crate) fn replies_of(
    alloc: Global,
    trees: &[Json],
) -> Result<Sequence<Sequence<Text>>, OutOfMemory>
    ensures texts { IfOk result (λ rs. rs ≡ map (λ t. texts_by (Some t)) (trees_of trees.now)) }
    ensures count { IfOk result (λ rs. length rs ≡ length trees.now) }
{
    let mut replies = Vec::new(alloc);
    for tree in trees {
        let texts = texts_in(alloc, Some(tree))?;
        replies.push(texts)?;
    }
    Ok(Sequence::from(replies))
}
