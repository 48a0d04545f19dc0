//! The one compact spelling of a tree.
ghost use Rattle.std.specs.Prelude.{◌≡◌, ◌≤◌, ◌++◌, ◌∷◌, [], IfOk, OnOk, string_bytes, decimal, if◌then◌else◌};
ghost use Rattle.adx_json.specs.Tree.{Tree, items_of, members_of, levels};
ghost use Rattle.adx_json.specs.Grammar.{IsJson};
ghost use Rattle.adx_json.specs.WellFormed.{IsWellFormed, HasUtf8, AllHaveUtf8, MembersHaveUtf8};
ghost use Rattle.adx_json.specs.Spelling.{spelling, items_spelling, members_spelling};
ghost use Rattle.adx_json.specs.View.{tree_of, trees_of, members_view};

use crate::tree::{Json, Member};
use adx_units::{OutOfMemory, Text, push_text};
use itoa::Buffer;
use std::alloc::Global;

/// The compact spelling of a tree: the one JSON text (RFC 8259) of it with no white space and no needless escape.
/// What is written of a well-formed tree of at most 64 levels is read back as that tree, and is no text of another.
pub fn write(alloc: Global, tree: &Json) -> Result<Text, OutOfMemory>
    ensures spelled { IfOk result (λ t. t ≡ spelling (tree_of tree.now)) }
    ensures back { IsWellFormed (tree_of tree.now) → levels (tree_of tree.now) ≤ 64 → IfOk result (λ t. IsJson t (tree_of tree.now)) }
    ensures only { IsWellFormed (tree_of tree.now) → levels (tree_of tree.now) ≤ 64
        → IfOk result (λ t. (u : Tree) → IsJson t u → u ≡ tree_of tree.now) }
{
    let mut out = String::new(alloc);
    push_value(&mut out, tree)?;
    Ok(Text::from(out))
}

/// Puts the compact spelling of a tree at the end.
#[cycle(write)]
pub fn push_value(out: &mut String, value: &Json) -> Result<(), OutOfMemory>
    ensures spelled { OnOk result (string_bytes out.new ≡ string_bytes out.old ++ spelling (tree_of value.now)) }
    ensures utf8 { OnOk result (HasUtf8 (tree_of value.now)) }
{
    match value {
        Json::Null => out.push_str("null")?,
        Json::Bool(true) => out.push_str("true")?,
        Json::Bool(false) => out.push_str("false")?,
        Json::Number(number) => out.push_str(number.as_str())?,
        Json::Text(text) => push_text(out, text.as_str())?,
        Json::List(items) => {
            out.push_str("[")?;
            push_items(out, items)?;
            out.push_str("]")?;
        }
        Json::Object(members) => {
            out.push_str("{")?;
            push_members(out, members)?;
            out.push_str("}")?;
        }
    }
    Ok(())
}

#[cycle(write)]
fn push_items(out: &mut String, items: &Vec<Json>) -> Result<(), OutOfMemory>
    ensures spelled { OnOk result (string_bytes out.new ≡ string_bytes out.old ++ items_spelling (items_of (trees_of items.now.items))) }
    ensures utf8 { OnOk result (AllHaveUtf8 (items_of (trees_of items.now.items))) }
{
    let mut first = true;
    for item in items {
        push_comma(out, first)?;
        push_value(out, item)?;
        first = false;
    }
    Ok(())
}

#[cycle(write)]
fn push_members(out: &mut String, members: &Vec<Member>) -> Result<(), OutOfMemory>
    ensures spelled { OnOk result (string_bytes out.new ≡ string_bytes out.old ++ members_spelling (members_of (members_view members.now.items))) }
    ensures utf8 { OnOk result (MembersHaveUtf8 (members_of (members_view members.now.items))) }
{
    let mut first = true;
    for member in members {
        push_comma(out, first)?;
        push_text(out, member.name.as_str())?;
        out.push_str(":")?;
        push_value(out, &member.value)?;
        first = false;
    }
    Ok(())
}

/// Puts a comma at the end, but before the first item or member.
pub fn push_comma(out: &mut String, first: bool) -> Result<(), OutOfMemory>
    ensures { OnOk result (string_bytes out.new ≡ string_bytes out.old ++ (if first then [] else 44 ∷ [])) }
{
    if !first {
        out.push_str(",")?;
    }
    Ok(())
}

/// Puts a whole number at the end, in decimal.
pub fn push_number(out: &mut String, number: u64) -> Result<(), OutOfMemory>
    ensures { OnOk result (string_bytes out.new ≡ string_bytes out.old ++ decimal number) }
{
    let mut buffer = Buffer::new();
    out.push_str(buffer.format(number))?;
    Ok(())
}
