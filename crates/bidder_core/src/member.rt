//! Members of the objects that a bidder answers with.
ghost use Rattle.std.specs.Prelude.{◌≡◌, ◌++◌, ◌∷◌, [], OnOk};
ghost use Rattle.adx_json.specs.Tree.{text as text_tree, number as number_tree, list as list_tree, items_of};
ghost use Rattle.adx_json.specs.View.{tree_of, trees_of, members_view};
ghost use Rattle.adx_units.specs.Money.{price_text};

use adx_json::{Json, Member};
use adx_units::{ArrayText, OutOfMemory, Text, Units, write_price};
use std::alloc::Global;
use std::str;

/// Adds a member behind the others.
fn push_member(
    alloc: Global,
    members: &mut Vec<Member>,
    name: &str,
    value: Json,
) -> Result<(), OutOfMemory>
    ensures { OnOk result (members_view members.new.items ≡ members_view members.old.items ++ (name.now, tree_of value) ∷ []) }
{
    let name = Text::of(alloc, name)?;
    members.push(Member { name, value })?;
    Ok(())
}

/// Adds a member that is a text.
pub(crate) fn push_text(
    alloc: Global,
    members: &mut Vec<Member>,
    name: &str,
    value: Text,
) -> Result<(), OutOfMemory>
    ensures { OnOk result (members_view members.new.items ≡ members_view members.old.items ++ (name.now, text_tree value) ∷ []) }
{
    push_member(alloc, members, name, Json::Text(value))
}

/// Adds a member that is a price, in dollars per thousand.
pub(crate) fn push_number(
    alloc: Global,
    members: &mut Vec<Member>,
    name: &str,
    price: Units,
) -> Result<(), OutOfMemory>
    ensures { OnOk result (members_view members.new.items ≡ members_view members.old.items ++ (name.now, number_tree (price_text price.0)) ∷ []) }
{
    let mut digits = ArrayText::new();
    write_price(price, &mut digits);
    let number = Text::of(alloc, str::from_utf8(digits.as_bytes()).unwrap())?;
    push_member(alloc, members, name, Json::Number(number))
}

/// Adds a member that is a list.
pub(crate) fn push_list(
    alloc: Global,
    members: &mut Vec<Member>,
    name: &str,
    items: Vec<Json>,
) -> Result<(), OutOfMemory>
    ensures { OnOk result (members_view members.new.items ≡ members_view members.old.items ++ (name.now, list_tree (items_of (trees_of items.items))) ∷ []) }
{
    push_member(alloc, members, name, Json::List(items))
}
