//! What bidders are asked: the request, but for the members of an auction that is held again.
ghost use Rattle.std.specs.Prelude.{◌≡◌, ◌∷◌, ◌++◌, OnOk, string_bytes};
ghost use Rattle.adx_units.specs.JsonTexts.{text_spelling};
ghost use Rattle.adx_json.specs.Spelling.{spelling, items_spelling, members_spelling};
ghost use Rattle.adx_json.specs.Tree.{items_of, members_of};
ghost use Rattle.adx_json.specs.View.{tree_of, trees_of, members_view};
ghost use Rattle.adx_json.proofs.Rows.{left_members};
ghost use Rattle.rtb_request.specs.ForBidders.{request_for_bidders};
ghost use Rattle.rtb_request.specs.Asked.{item_part, member_part, gets_at as gets_at_by, gets_cur as gets_cur_by, change_of, at_after, cur_after, changed_value, coming, asked, items_asked, members_asked};

use adx_json::{Json, Member, given, is_number_text, push_comma, push_value};
use adx_units::{OutOfMemory, push_text};

/// A part of a request, as far as a change can stand in it.
#[derive(Clone, Copy)]
pub(crate) enum Part {
    Request,
    Imps,
    Imp,
    Pmp,
    Deals,
    Deal,
    Other,
}

impl Part {
    /// The part that an item of a list of this part is.
    fn item(self) -> Part
        ensures { result ≡ item_part self }
    {
        match self {
            Part::Imps => Part::Imp,
            Part::Deals => Part::Deal,
            _ => Part::Other,
        }
    }

    /// The part that a member of an object of this part is.
    fn member(self, name: &str) -> Part
        ensures { result ≡ member_part name.now self }
    {
        match self {
            Part::Request if name == "imp" => Part::Imps,
            Part::Imp if name == "pmp" => Part::Pmp,
            Part::Pmp if name == "deals" => Part::Deals,
            _ => Part::Other,
        }
    }

    /// Whether an object of this part gets `at` 1.
    fn gets_at(self, tree: &Json) -> bool
        ensures { result ≡ gets_at_by self (tree_of tree.now) }
    {
        match self {
            Part::Request => true,
            Part::Deal => !is_number_text(given(tree.member("at")), "3"),
            _ => false,
        }
    }

    /// Whether an object of this part gets `cur` ["USD"].
    fn gets_cur(self) -> bool
        ensures { result ≡ gets_cur_by self }
    {
        match self {
            Part::Request => true,
            _ => false,
        }
    }
}

/// What becomes of a member.
#[derive(Clone, Copy)]
pub(crate) enum Change {
    /// Its value is 1.
    FirstPrice,
    /// Its value is ["USD"].
    Dollars,
    /// It is a part of its own.
    Stays,
}

impl Change {
    /// The change of the member with that name, where `at` and `cur` are still to come.
    fn of(at: bool, cur: bool, name: &str) -> Change
        ensures { result ≡ change_of at cur name.now }
    {
        if at && name == "at" {
            Change::FirstPrice
        } else if cur && name == "cur" {
            Change::Dollars
        } else {
            Change::Stays
        }
    }

    /// Whether `at` is to come behind it.
    fn at_after(self, at: bool) -> bool
        ensures { result ≡ at_after self at }
    {
        match self {
            Change::FirstPrice => false,
            _ => at,
        }
    }

    /// Whether `cur` is to come behind it.
    fn cur_after(self, cur: bool) -> bool
        ensures { result ≡ cur_after self cur }
    {
        match self {
            Change::Dollars => false,
            _ => cur,
        }
    }
}

/// Puts what bidders are asked for a request at the end: its compact spelling with `at` 1 and `cur` ["USD"], in which
/// each deal whose `at` isn't 3 has `at` 1. A member that is there keeps its place, and one that isn't comes last. What
/// is no object stays as it is.
#[tactic(auto, using(crate::proofs::AskedParts::request_is))]
pub fn push_for_bidders(out: &mut String, tree: &Json) -> Result<(), OutOfMemory>
    ensures { OnOk result (string_bytes out.new ≡ string_bytes out.old ++ spelling (request_for_bidders (tree_of tree.now))) }
{
    push_part(out, Part::Request, tree)
}

#[cycle(push)]
fn push_part(out: &mut String, part: Part, tree: &Json) -> Result<(), OutOfMemory>
    ensures { OnOk result (string_bytes out.new ≡ string_bytes out.old ++ spelling (asked part (tree_of tree.now))) }
{
    if let Part::Other = part {
        return push_value(out, tree);
    }
    match tree {
        Json::Null | Json::Bool(_) | Json::Number(_) | Json::Text(_) => push_value(out, tree)?,
        Json::List(items) => {
            out.push_str("[")?;
            push_items(out, part.item(), items)?;
            out.push_str("]")?;
        }
        Json::Object(members) => {
            out.push_str("{")?;
            push_members(out, part, part.gets_at(tree), part.gets_cur(), members)?;
            out.push_str("}")?;
        }
    }
    Ok(())
}

#[cycle(push)]
fn push_items(out: &mut String, part: Part, items: &Vec<Json>) -> Result<(), OutOfMemory>
    ensures { OnOk result (string_bytes out.new ≡ string_bytes out.old ++ items_spelling (items_asked part (items_of (trees_of items.now.items)))) }
{
    let mut first = true;
    for item in items {
        push_comma(out, first)?;
        push_part(out, part, item)?;
        first = false;
    }
    Ok(())
}

#[cycle(push)]
fn push_members(
    out: &mut String,
    part: Part,
    at: bool,
    cur: bool,
    members: &Vec<Member>,
) -> Result<(), OutOfMemory>
    ensures { OnOk result (string_bytes out.new ≡ string_bytes out.old ++ members_spelling (members_asked part at cur (members_of (members_view members.now.items)))) }
{
    let mut first = true;
    let mut at = at;
    let mut cur = cur;
    for member in members {
        push_comma(out, first)?;
        let change = Change::of(at, cur, member.name.as_str());
        push_member(out, part, change, member)?;
        at = change.at_after(at);
        cur = change.cur_after(cur);
        first = false;
    }
    push_coming(out, first, at, cur)
}

#[cycle(push)]
fn push_member(
    out: &mut String,
    part: Part,
    change: Change,
    member: &Member,
) -> Result<(), OutOfMemory>
    ensures { OnOk result (string_bytes out.new ≡ string_bytes out.old
        ++ (text_spelling member.now.name ++ 58 ∷ spelling (changed_value change (asked (member_part member.now.name part) (tree_of member.now.value))))) }
{
    push_text(out, member.name.as_str())?;
    out.push_str(":")?;
    match change {
        Change::FirstPrice => out.push_str("1")?,
        Change::Dollars => out.push_str("[\"USD\"]")?,
        Change::Stays => push_part(out, part.member(member.name.as_str()), &member.value)?,
    }
    Ok(())
}

/// Puts the members that didn't come, behind others or first.
fn push_coming(out: &mut String, first: bool, at: bool, cur: bool) -> Result<(), OutOfMemory>
    ensures { OnOk result (string_bytes out.new ≡ string_bytes out.old ++ left_members first (coming at cur)) }
{
    let mut first = first;
    if at {
        push_comma(out, first)?;
        out.push_str("\"at\":1")?;
        first = false;
    }
    if cur {
        push_comma(out, first)?;
        out.push_str("\"cur\":[\"USD\"]")?;
    }
    Ok(())
}
