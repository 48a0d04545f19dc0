//! A bid's body, written straight from its tree.
ghost use Rattle.std.specs.Prelude.{◌≡◌, ◌++◌, IfOk, OnOk, string_bytes};
ghost use Rattle.adx_json.specs.Tree.{members_of};
ghost use Rattle.adx_json.specs.View.{tree_of, members_view, member_of};
ghost use Rattle.rtb_response.specs.Bodies.{body, is_own as is_own_name, passed_on};
ghost use Rattle.rtb_response.specs.Parts.{one_member, left_members};

use adx_json::{Json, Member, push_comma, push_value};
use adx_units::{OutOfMemory, Text, push_text};
use std::alloc::Global;

/// Whether the exchange writes the member of that name itself.
fn is_own(name: &str) -> bool
    ensures { result ≡ is_own_name name.now }
{
    match name.as_bytes() {
        b"id" | b"impid" | b"price" | b"nurl" | b"burl" | b"lurl" => true,
        _ => false,
    }
}

/// The compact spelling of the object of the members that are passed on; empty where the tree is no object. It is
/// made in `scratch`, which serves again, and copied once.
#[tactic(auto, using(crate::proofs::Passed::no_body))]
pub(crate) fn body_of(alloc: Global, scratch: &mut String, tree: &Json) -> Result<Text, OutOfMemory>
    ensures { IfOk result (λ t. t ≡ body (tree_of tree.now)) }
{
    scratch.clear();
    if let Some(members) = tree.members() {
        scratch.push_str("{")?;
        push_passed_on(scratch, true, members)?;
        scratch.push_str("}")?;
    }
    Text::of(alloc, scratch.as_str())
}

/// Puts the members that are passed on at the end, as the first members of an object or behind others.
pub(crate) fn push_passed_on(
    out: &mut String,
    first: bool,
    members: &[Member],
) -> Result<(), OutOfMemory>
    ensures { OnOk result (string_bytes out.new ≡ string_bytes out.old
        ++ left_members first (passed_on (members_of (members_view members.now)))) }
{
    let mut is_first = first;
    for member in members {
        if is_own(member.name.as_str()) {
            continue;
        }
        push_member(out, is_first, member)?;
        is_first = false;
    }
    Ok(())
}

/// Puts a member at the end, behind a comma unless it is the first.
fn push_member(out: &mut String, first: bool, member: &Member) -> Result<(), OutOfMemory>
    ensures { OnOk result (string_bytes out.new ≡ string_bytes out.old ++ one_member first (member_of member.now)) }
{
    push_comma(out, first)?;
    push_text(out, member.name.as_str())?;
    out.push_str(":")?;
    push_value(out, &member.value)?;
    Ok(())
}
