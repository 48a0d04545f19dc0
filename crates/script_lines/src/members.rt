//! The members of a script line, and what they are.
ghost use Rattle.std.specs.Prelude.{◌≡◌, ◌≤◌, length, option_map, codes, IfSome};
ghost use Rattle.adx_json.specs.Named.{member_in};
ghost use Rattle.adx_json.specs.View.{tree_of, trees_of};
ghost use Rattle.adx_json.specs.Values.{number_in as number_by, whole_by};
ghost use Rattle.script_lines.specs.Members.{answers_in as answers_by, ask_moment as ask_moment_by, is_null_or_object, is_null_or_object as is_null_or_object_by};
ghost use Rattle.std.specs.List.{list_all};
ghost use Rattle.deal_floor.specs.Reading.{given};

use crate::limits::LATEST_MOMENT;
use adx_json::{Json, find_members, items_in, number_in};
use adx_units::whole_up_to;

/// The members of a line that its kinds know, in one walk.
#[derive(Clone, Copy)]
pub(crate) struct LineMembers<'a> {
    pub(crate) ask: Option<&'a Json>,
    pub(crate) answers: Option<&'a Json>,
    pub(crate) now: Option<&'a Json>,
    pub(crate) notice: Option<&'a Json>,
    pub(crate) auction: Option<&'a Json>,
    pub(crate) bid: Option<&'a Json>,
    pub(crate) tick: Option<&'a Json>,
    pub(crate) budget: Option<&'a Json>,
    pub(crate) seat: Option<&'a Json>,
    pub(crate) cid: Option<&'a Json>,
    pub(crate) change: Option<&'a Json>,
}

/// The members of a line's value. A value that is no object has none.
pub(crate) fn line_members(value: &Json) -> LineMembers<'_>
    ensures ask { given result.ask ≡ member_in (codes "ask") (tree_of value.now) }
    ensures answers { given result.answers ≡ member_in (codes "answers") (tree_of value.now) }
    ensures now { given result.now ≡ member_in (codes "now") (tree_of value.now) }
    ensures notice { given result.notice ≡ member_in (codes "notice") (tree_of value.now) }
    ensures auction { given result.auction ≡ member_in (codes "auction") (tree_of value.now) }
    ensures bid { given result.bid ≡ member_in (codes "bid") (tree_of value.now) }
    ensures tick { given result.tick ≡ member_in (codes "tick") (tree_of value.now) }
    ensures budget { given result.budget ≡ member_in (codes "budget") (tree_of value.now) }
    ensures seat { given result.seat ≡ member_in (codes "seat") (tree_of value.now) }
    ensures cid { given result.cid ≡ member_in (codes "cid") (tree_of value.now) }
    ensures change { given result.change ≡ member_in (codes "change") (tree_of value.now) }
{
    let mut found = [None; 11];
    find_members(
        Some(value),
        &[
            "ask", "answers", "now", "notice", "auction", "bid", "tick", "budget", "seat", "cid",
            "change",
        ],
        &mut found,
    );
    let [
        ask,
        answers,
        now,
        notice,
        auction,
        bid,
        tick,
        budget,
        seat,
        cid,
        change,
    ] = found;
    LineMembers {
        ask,
        answers,
        now,
        notice,
        auction,
        bid,
        tick,
        budget,
        seat,
        cid,
        change,
    }
}

/// The whole number of at most `most` that a value is.
pub(crate) fn whole_in(value: Option<&Json>, most: u64) -> Option<u64>
    ensures value { result ≡ whole_by most (number_by (given value.entry)) }
    ensures small { IfSome result (λ n. n ≤ most) }
{
    whole_up_to(number_in(value)?.as_bytes(), most)
}

/// The moment of an ask; 0 where none is given.
pub(crate) fn ask_moment(value: Option<&Json>) -> Option<u64>
    ensures value { result ≡ ask_moment_by (given value.entry) }
    ensures small { IfSome result (λ n. n ≤ LATEST_MOMENT) }
{
    if value.is_none() {
        return Some(0);
    }
    whole_in(value, LATEST_MOMENT)
}

/// The answers that a line gives for so many bidders. None where they aren't of their form.
pub(crate) fn answers_in(value: Option<&Json>, bidders: usize) -> Option<&[Json]>
    ensures value { option_map (λ ts. trees_of ts.now) result ≡ answers_by bidders (given value.entry) }
    ensures few { IfSome result (λ ts. length ts.now ≤ bidders) }
{
    match value {
        None => Some(&[]),
        Some(Json::List(_)) => {
            let trees = items_in(value);
            (trees.len() <= bidders && are_null_or_objects(trees)).then_some(trees)
        }
        Some(_) => None,
    }
}

fn are_null_or_objects(trees: &[Json]) -> bool
    ensures { result ≡ list_all is_null_or_object (trees_of trees.now) }
{
    trees.iter().all(|tree| is_null_or_object(tree))
}

fn is_null_or_object(tree: &Json) -> bool
    ensures { result ≡ is_null_or_object_by (tree_of tree.now) }
{
    matches!(tree, Json::Null | Json::Object(_))
}
