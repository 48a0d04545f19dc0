//! An object's members by their names.
ghost use Rattle.std.specs.Prelude.{◌≡◌, Some, None, IfSome, IfNone, IfOk, OnOk, position};
ghost use Rattle.std.specs.Str.{bytes_eq};
ghost use Rattle.adx_json.specs.Named.{member_in, with_member as tree_with_member, with_value, IsObject};
ghost use Rattle.adx_json.specs.WellFormed.{IsWellFormed, HasUtf8};
ghost use Rattle.adx_json.specs.Tree.{members_of};
ghost use Rattle.adx_json.specs.View.{tree_of, members_view};
ghost use Rattle.adx_json.specs.declared.tree.Member.{out-Member};

use crate::tree::{Json, Member};
use adx_units::{OutOfMemory, Text};
use std::alloc::Global;

impl Json {
    /// The value of the member with that name, the first such one. None exactly where the tree is no object or has
    /// no such member.
    pub fn member(&self, name: &str) -> Option<&Json>
        ensures some { IfSome result (λ v. member_in name.now (tree_of self.now) ≡ Some (tree_of v.now)) }
        ensures none { IfNone result (member_in name.now (tree_of self.now) ≡ None) }
    {
        let Json::Object(members) = self else {
            return None;
        };
        let at = place_of(members, name.as_bytes())?;
        Some(&members[at].value)
    }

    /// The object with that member: its value replaced in its place, or a new member at the end. The tree is given up
    /// where memory is refused.
    pub fn with_member(self, alloc: Global, name: &str, value: Json) -> Result<Json, OutOfMemory>
        requires { IsObject (tree_of self) }
        ensures tree { IfOk result (λ j. tree_of j ≡ tree_with_member name.now (tree_of value) (tree_of self)) }
        ensures well_formed { IsWellFormed (tree_of self) → IsWellFormed (tree_of value) → IfOk result (λ j. IsWellFormed (tree_of j)) }
        ensures texts { HasUtf8 (tree_of self) → HasUtf8 (tree_of value) → IfOk result (λ j. HasUtf8 (tree_of j)) }
    {
        let Json::Object(mut members) = self else {
            unreachable!()
        };
        put_member(alloc, &mut members, name, value)?;
        Ok(Json::Object(members))
    }
}

/// Replaces the value of the first member with that name, or puts a new member at the end.
fn put_member(
    alloc: Global,
    members: &mut Vec<Member>,
    name: &str,
    value: Json,
) -> Result<(), OutOfMemory>
    ensures { OnOk result (members_of (members_view members.new.items) ≡ with_value name.now (tree_of value) (members_of (members_view members.old.items))) }
{
    let Some(at) = place_of(members, name.as_bytes()) else {
        let name = Text::of(alloc, name)?;
        members.push(Member { name, value })?;
        return Ok(());
    };
    members[at].value = value;
    Ok(())
}

/// The place of the first member with that name.
fn place_of(members: &[Member], name: &[u8]) -> Option<usize>
    ensures { result ≡ position (λ m. bytes_eq (out-Member m).name name.now) members.now }
{
    members
        .iter()
        .position(|member| member.name.as_bytes() == name)
}
