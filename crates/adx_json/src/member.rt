//! An object's members by their names, in one walk over them.
ghost use Rattle.std.specs.Prelude.{◌≡◌, ◌≢◌, ◌<◌, ℕ, List, None, length, option_map};
ghost use Rattle.std.specs.Borrow.{Bor};
ghost use Rattle.std.specs.List.{slice_index_or};
ghost use Rattle.adx_json.specs.Tree.{members_of};
ghost use Rattle.adx_json.specs.Named.{value_of};
ghost use Rattle.adx_json.specs.View.{tree_of, member_of, members_view};
ghost use Rattle.adx_json.specs.FoundMembers.{AreFound, member_within};
ghost use Rattle.adx_json.specs.Values.{given_within, not_null};
ghost use Rattle.adx_json.specs.Walks.{members_by, with_member};

use crate::tree::{Json, Member};

/// Finds what is under each of some names in an object that may be absent, in one walk over its members: of members
/// with one name the first counts, and null is there. Each name has its place in `found`.
pub fn find_members<'a>(object: Option<&'a Json>, names: &[&str], found: &mut [Option<&'a Json>])
    requires { length found.old ≡ length names.now }
    ensures { AreFound (λ name. member_within name (option_map (λ t. tree_of t.now) object.entry)) 0 names.now found.new }
{
    clear(found);
    for member in members_within(object) {
        keep(found, names, member);
    }
}

/// The same, but null counts as absent.
pub fn find_given<'a>(object: Option<&'a Json>, names: &[&str], found: &mut [Option<&'a Json>])
    requires { length found.old ≡ length names.now }
    ensures { AreFound (λ name. given_within name (option_map (λ t. tree_of t.now) object.entry)) 0 names.now found.new }
{
    find_members(object, names, found);
    leave_out_nulls(found);
}

/// The members of an object in their order. Empty where the value is absent or no object.
#[tactic(auto, using(crate::proofs::Meeting::members_found))]
fn members_within(object: Option<&Json>) -> &[Member]
    ensures { (name : List ℕ) → value_of name (members_of (members_view result.now)) ≡ member_within name (option_map (λ t. tree_of t.now) object.entry) }
{
    match object {
        Some(tree) => members_in(tree),
        None => &[],
    }
}

fn clear(found: &mut [Option<&Json>])
    ensures { (k : ℕ) → slice_index_or found.new k None ≡ None }
{
    for place in 0..found.len() {
        found[place] = None;
    }
}

/// Keeps a member's value at each place of its name where nothing was found before.
fn keep<'a>(found: &mut [Option<&'a Json>], names: &[&str], member: &'a Member)
    requires { length found.old ≡ length names.now }
    ensures { (k : ℕ) (n : Bor (List ℕ)) → k < length names.now → n ≡ slice_index_or names.now k n
        → option_map (λ t. tree_of t.now) (slice_index_or found.new k None)
        ≡ with_member n.now (option_map (λ t. tree_of t.now) (slice_index_or found.old k None)) (member_of member.now) }
{
    let given = member.name.as_str();
    for (place, name) in names.iter().enumerate() {
        put(found, place, name, given, &member.value);
    }
}

/// Keeps a value under a name where nothing was found for it before. Of the names that are looked for most differ in
/// length from the given one.
fn put<'a>(found: &mut [Option<&'a Json>], place: usize, name: &str, given: &str, value: &'a Json)
    requires { place < length found.old }
    ensures here { option_map (λ t. tree_of t.now) (slice_index_or found.new place None)
        ≡ with_member name.now (option_map (λ t. tree_of t.now) (slice_index_or found.old place None)) (given.now, tree_of value.now) }
    ensures others { (k : ℕ) → k ≢ place → slice_index_or found.new k None ≡ slice_index_or found.old k None }
{
    if given.len() == name.len() && found[place].is_none() && given == name {
        found[place] = Some(value);
    }
}

fn leave_out_nulls(found: &mut [Option<&Json>])
    ensures { (k : ℕ) → option_map (λ t. tree_of t.now) (slice_index_or found.new k None)
        ≡ not_null (option_map (λ t. tree_of t.now) (slice_index_or found.old k None)) }
{
    for place in 0..found.len() {
        found[place] = given(found[place]);
    }
}

/// The members of an object in their order. Empty where the value is no object.
pub fn members_in(tree: &Json) -> &[Member]
    ensures { members_of (members_view result.now) ≡ members_by (tree_of tree.now) }
{
    match tree.members() {
        Some(members) => members,
        None => &[],
    }
}

/// What was found, where it isn't null.
pub fn given(found: Option<&Json>) -> Option<&Json>
    ensures { option_map (λ t. tree_of t.now) result ≡ not_null (option_map (λ t. tree_of t.now) found.entry) }
{
    match found? {
        Json::Null => None,
        value => Some(value),
    }
}
