//! JSON texts (RFC 8259) in one pass over their bytes.
ghost use Rattle.std.specs.Prelude.{◌≡◌, ◌++◌, ◌∷◌, ◌+◌, ◌≤◌, [], List, ℕ, suc, length, IfOk, IfErr, OnOk, true};
ghost use Rattle.std.specs.List.{prefix_len};
ghost use Rattle.adx_json.specs.Tree.{Tree, items_of, members_of, levels};
ghost use Rattle.adx_json.specs.WellFormed.{IsWellFormed, HasUtf8};
ghost use Rattle.adx_json.specs.Grammar.{is_space as is_space_byte, IsJson};
ghost use Rattle.adx_json.specs.Faults.{IsFault};
ghost use Rattle.adx_json.specs.Machine.{Frame, in_list, in_object, at_value, at_first_item, behind_value, at_first_name, at_name, in_word, stop_of, Tells};
ghost use Rattle.adx_json.specs.Found.{StopsAt, StopsInside, FoundSpace, FoundValue, FoundElement, FoundItems, FoundName, FoundMember, FoundMembers, StopsWord};
ghost use Rattle.adx_units.specs.Scans.{Stops};
ghost use Rattle.adx_json.specs.View.{tree_of, trees_of, member_of, members_view};
ghost use Rattle.adx_json.specs.declared.tree.Member.{out-Member};

use crate::fault::{JsonFault, Stop};
use crate::front::after;
use crate::number::number_at;
use crate::repeats::without_repeats;
use crate::text::text_at;
use crate::tree::{Json, Member};
use adx_units::Text;
use std::alloc::Global;

/// How many lists and objects may be one within the other.
const LEVELS: usize = 64;

/// The items and members of the lists and objects whose end is still to come, those of the innermost last. Each takes its
/// own at its end: it is allocated once, as long as it is.
#[derive(Drop)]
struct Pending {
    items: Vec<Json>,
    members: Vec<Member>,
}

fn is_space(byte: u8) -> bool
    ensures { result ≡ is_space_byte byte }
{
    byte == b' ' || byte == b'\t' || byte == b'\n' || byte == b'\r'
}

fn space_len(bytes: &[u8]) -> usize
    ensures { result ≡ prefix_len is_space_byte bytes.now }
{
    bytes.iter().take_while(|byte| is_space(**byte)).count()
}

/// The bytes after the white space at the front.
fn after_space(bytes: &[u8]) -> &[u8]
    ensures { FoundSpace bytes.now result.now }
{
    let (_, rest) = bytes.split_at(space_len(bytes));
    rest
}

/// The bytes after a word's rest.
fn word_at<'a>(bytes: &'a [u8], word: &[u8]) -> Result<&'a [u8], Stop>
    ensures found { IfOk result (λ rest. bytes.now ≡ word.now ++ rest.now) }
    ensures stops { IfErr result (λ e. StopsWord e bytes.now word.now) }
{
    let mut left = bytes;
    for wanted in word {
        let Some((byte, rest)) = left.split_first() else {
            return Err(Stop::Syntax(0));
        };
        if *byte != *wanted {
            return Err(Stop::Syntax(left.len()));
        }
        left = rest;
    }
    Ok(left)
}

/// The value of at most so many levels at the front, and the bytes after it.
#[cycle(json)]
fn value_at<'a>(
    alloc: Global,
    pending: &mut Pending,
    bytes: &'a [u8],
    levels: usize,
) -> Result<(Json, &'a [u8]), Stop>
    requires { Stops is_space_byte bytes.now }
    ensures found { IfOk result (λ x. FoundValue levels bytes.now (tree_of x.0) x.1.now) }
    ensures stops { IfErr result (λ e. StopsAt e levels at_value bytes.now) }
    ensures kept { OnOk result ((pending.new.items.items ≡ pending.old.items.items) × (pending.new.members.items ≡ pending.old.members.items)) }
{
    let Some((byte, rest)) = bytes.split_first() else {
        return Err(Stop::Syntax(0));
    };
    match *byte {
        b'"' => {
            let (text, rest) = text_at(alloc, rest)?;
            Ok((Json::Text(text), rest))
        }
        b'[' => {
            if levels == 0 {
                return Err(Stop::Depth(bytes.len()));
            }
            let (items, rest) = items_at(alloc, pending, rest, levels - 1)?;
            Ok((Json::List(items), rest))
        }
        b'{' => {
            if levels == 0 {
                return Err(Stop::Depth(bytes.len()));
            }
            let (members, rest) = members_at(alloc, pending, rest, levels - 1)?;
            let kept = without_repeats(alloc, members)?;
            Ok((Json::Object(kept), rest))
        }
        b't' => {
            let rest = word_at(rest, b"rue")?;
            Ok((Json::Bool(true), rest))
        }
        b'f' => {
            let rest = word_at(rest, b"alse")?;
            Ok((Json::Bool(false), rest))
        }
        b'n' => {
            let rest = word_at(rest, b"ull")?;
            Ok((Json::Null, rest))
        }
        _ => {
            let (number, rest) = number_at(alloc, bytes)?;
            Ok((Json::Number(number), rest))
        }
    }
}

/// The value at the front with the white space around it, and the bytes after.
#[cycle(json)]
fn element_at<'a>(
    alloc: Global,
    pending: &mut Pending,
    bytes: &'a [u8],
    levels: usize,
) -> Result<(Json, &'a [u8]), Stop>
    ensures found { IfOk result (λ x. FoundElement levels bytes.now (tree_of x.0) x.1.now) }
    ensures stops { IfErr result (λ e. StopsAt e levels at_value bytes.now) }
    ensures kept { OnOk result ((pending.new.items.items ≡ pending.old.items.items) × (pending.new.members.items ≡ pending.old.members.items)) }
{
    let start = after_space(bytes);
    let (value, rest) = value_at(alloc, pending, start, levels)?;
    let end = after_space(rest);
    Ok((value, end))
}

/// The items after a list's opening bracket, and the bytes after its closing one.
#[cycle(json)]
fn items_at<'a>(
    alloc: Global,
    pending: &mut Pending,
    bytes: &'a [u8],
    levels: usize,
) -> Result<(Vec<Json>, &'a [u8]), Stop>
    ensures found { IfOk result (λ x. FoundItems levels bytes.now (items_of (trees_of x.0.items)) x.1.now) }
    ensures stops { IfErr result (λ e. StopsInside e levels at_first_item bytes.now) }
    ensures kept { OnOk result ((pending.new.items.items ≡ pending.old.items.items) × (pending.new.members.items ≡ pending.old.members.items)) }
{
    let begun = pending.items.len();
    let start = after_space(bytes);
    if let Some(rest) = after(start, b']') {
        return Ok((Vec::new(alloc), rest));
    }
    let mut left = bytes;
    'items: loop {
        let (item, rest) = element_at(alloc, pending, left, levels)?;
        pending.items.push(item)?;
        if let Some(end) = after(rest, b']') {
            let items = pending.items.split_off(begun)?;
            return Ok((items, end));
        }
        let Some(more) = after(rest, b',') else {
            return Err(Stop::Syntax(rest.len()));
        };
        left = more;
    }
}

/// The members after an object's opening brace as they are, and the bytes after its closing one.
#[cycle(json)]
fn members_at<'a>(
    alloc: Global,
    pending: &mut Pending,
    bytes: &'a [u8],
    levels: usize,
) -> Result<(Vec<Member>, &'a [u8]), Stop>
    ensures found { IfOk result (λ x. FoundMembers levels bytes.now (members_of (members_view x.0.items)) x.1.now) }
    ensures stops { IfErr result (λ e. StopsInside e levels at_first_name bytes.now) }
    ensures kept { OnOk result ((pending.new.items.items ≡ pending.old.items.items) × (pending.new.members.items ≡ pending.old.members.items)) }
{
    let begun = pending.members.len();
    let start = after_space(bytes);
    if let Some(rest) = after(start, b'}') {
        return Ok((Vec::new(alloc), rest));
    }
    let mut left = bytes;
    'members: loop {
        let (member, rest) = member_at(alloc, pending, left, levels)?;
        pending.members.push(member)?;
        if let Some(end) = after(rest, b'}') {
            let members = pending.members.split_off(begun)?;
            return Ok((members, end));
        }
        let Some(more) = after(rest, b',') else {
            return Err(Stop::Syntax(rest.len()));
        };
        left = more;
    }
}

/// A member at the front with the white space around it, and the bytes after.
#[cycle(json)]
fn member_at<'a>(
    alloc: Global,
    pending: &mut Pending,
    bytes: &'a [u8],
    levels: usize,
) -> Result<(Member, &'a [u8]), Stop>
    ensures found { IfOk result (λ x. FoundMember levels bytes.now (member_of x.0).0 (member_of x.0).1 x.1.now) }
    ensures stops { IfErr result (λ e. StopsInside e levels at_name bytes.now) }
    ensures kept { OnOk result ((pending.new.items.items ≡ pending.old.items.items) × (pending.new.members.items ≡ pending.old.members.items)) }
{
    let (name, rest) = name_at(alloc, bytes)?;
    let (value, rest) = element_at(alloc, pending, rest, levels)?;
    Ok((Member { name, value }, rest))
}

/// A member's name with the white space around it, and the bytes after its colon.
fn name_at(alloc: Global, bytes: &[u8]) -> Result<(Text, &[u8]), Stop>
    ensures found { IfOk result (λ x. FoundName bytes.now x.0 x.1.now) }
    ensures stops { IfErr result (λ e. (fs : List Frame) → Tells e (stop_of 64 at_name fs bytes.now)) }
{
    let start = after_space(bytes);
    let Some(body) = after(start, b'"') else {
        return Err(Stop::Syntax(start.len()));
    };
    let (name, rest) = text_at(alloc, body)?;
    let behind = after_space(rest);
    let Some(value) = after(behind, b':') else {
        return Err(Stop::Syntax(behind.len()));
    };
    Ok((name, value))
}

/// The value that all the bytes spell.
fn whole(alloc: Global, bytes: &[u8]) -> Result<Json, Stop>
    ensures found { IfOk result (λ j. IsJson bytes.now (tree_of j)) }
    ensures stops { IfErr result (λ e. Tells e (stop_of 64 at_value [] bytes.now)) }
{
    let mut pending = Pending {
        items: Vec::new(alloc),
        members: Vec::new(alloc),
    };
    let (value, rest) = element_at(alloc, &mut pending, bytes, LEVELS)?;
    if !rest.is_empty() {
        return Err(Stop::Syntax(rest.len()));
    }
    Ok(value)
}

/// The tree of a JSON text (RFC 8259) with at most 64 levels: of members with one name the last stays, in its own
/// place, and a surrogate escape with no partner represents U+FFFD.
pub fn read(alloc: Global, bytes: &[u8]) -> Result<Json, JsonFault>
    ensures found { IfOk result (λ j. IsJson bytes.now (tree_of j)) }
    ensures only { IfOk result (λ j. (t : Tree) → IsJson bytes.now t → t ≡ tree_of j) }
    ensures well_formed { IfOk result (λ j. IsWellFormed (tree_of j)) }
    ensures texts { IfOk result (λ j. HasUtf8 (tree_of j)) }
    ensures shallow { IfOk result (λ j. levels (tree_of j) ≤ 64) }
    ensures fault { IfErr result (IsFault bytes.now) }
{
    let len = bytes.len();
    match whole(alloc, bytes) {
        Ok(tree) => Ok(tree),
        Err(Stop::Syntax(left)) => Err(JsonFault::Syntax {
            at: (len - left) as u64,
        }),
        Err(Stop::Utf8(left)) => Err(JsonFault::Utf8 {
            at: (len - left) as u64,
        }),
        Err(Stop::Depth(left)) => Err(JsonFault::Depth {
            at: (len - left) as u64,
        }),
        Err(Stop::OutOfMemory) => Err(JsonFault::OutOfMemory),
    }
}
