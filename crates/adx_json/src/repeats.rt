//! Repeated names of an object's members.
ghost use Rattle.std.specs.Prelude.{◌≡◌, ◌<◌, ◌∷◌, not, length, IfOk};
ghost use Rattle.std.specs.List.{list_any};
ghost use Rattle.std.specs.Str.{bytes_eq};
ghost use Rattle.adx_json.specs.Tree.{members_of};
ghost use Rattle.adx_json.specs.Grammar.{last_of_each};
ghost use Rattle.adx_json.specs.View.{members_view};
ghost use Rattle.adx_json.specs.Repeats.{ComesAgain, stays, mark_behind, mark_from};
ghost use Rattle.adx_json.specs.declared.tree.Member.{out-Member};

use crate::tree::Member;
use adx_units::OutOfMemory;
use std::alloc::Global;
use std::collections::BTreeSet;

/// Up to so many members a name is looked up among those after it.
const FEW: usize = 16;

/// What the mark of a name is multiplied by at each byte: the prime of FNV-1a for 64 bits.
const MARK_FACTOR: u64 = 0x0100_0000_01b3;

/// The members without those whose names come again later: of members with one name the last stays, in its place.
pub(crate) fn without_repeats(
    alloc: Global,
    members: Vec<Member>,
) -> Result<Vec<Member>, OutOfMemory>
    ensures { IfOk result (λ ms. members_of (members_view ms.items) ≡ last_of_each (members_of (members_view members.items))) }
{
    if members.len() <= FEW {
        return Ok(last_of_few(members));
    }
    last_of_many(alloc, members)
}

/// The same by what is said of each member.
fn last_of_many(alloc: Global, members: Vec<Member>) -> Result<Vec<Member>, OutOfMemory>
    ensures { IfOk result (λ ms. members_of (members_view ms.items) ≡ last_of_each (members_of (members_view members.items))) }
{
    let told = which_stay(alloc, members.as_slice())?;
    if !has_repeats(told.as_slice()) {
        return Ok(members);
    }
    kept_of(alloc, members, told.as_slice())
}

/// Of each member whether no one after it has its name: from the end on, with the set of the names that were met.
fn which_stay(alloc: Global, members: &[Member]) -> Result<Vec<bool>, OutOfMemory>
    ensures { IfOk result (λ told. told.items ≡ stays members.now) }
{
    let mut left = members;
    let mut told = Vec::with_capacity(alloc, members.len())?;
    let mut seen = BTreeSet::new(alloc);
    'members: while let Some((member, before)) = left.split_last() {
        let name = member.name.as_str();
        let is_new = seen.insert((mark_of(name.as_bytes()), name))?;
        told.push(is_new)?;
        left = before;
    }
    told.reverse();
    Ok(told)
}

/// A number of a name, by which most names are distinguished without a look at their bytes.
fn mark_of(name: &[u8]) -> u64
    ensures { result ≡ mark_from 0 name.now }
{
    let mut left = name;
    let mut mark = 0;
    'bytes: while let Some((byte, behind)) = left.split_first() {
        mark = mark_behind(mark, *byte);
        left = behind;
    }
    mark
}

fn mark_behind(mark: u64, byte: u8) -> u64
    ensures { result ≡ mark_behind mark byte }
{
    mark.wrapping_add(byte as u64).wrapping_mul(MARK_FACTOR)
}

/// Whether a member is reported not to stay.
fn has_repeats(told: &[bool]) -> bool
    ensures { result ≡ list_any not told.now }
{
    told.iter().any(|stays| !*stays)
}

/// The members that stay.
fn kept_of(alloc: Global, members: Vec<Member>, told: &[bool]) -> Result<Vec<Member>, OutOfMemory>
    requires { told.now ≡ stays members.items }
    ensures { IfOk result (λ ms. members_of (members_view ms.items) ≡ last_of_each (members_of (members_view members.items))) }
{
    let mut left = members;
    left.reverse();
    let mut flags = told;
    let mut kept = Vec::new(alloc);
    'members: while let Some(member) = left.pop() {
        let (stays, behind) = first_flag(flags);
        flags = behind;
        if stays {
            kept.push(member)?;
        } else {
            leave_out(member);
        }
    }
    Ok(kept)
}

/// The first of what is reported, and what is reported after it.
fn first_flag(told: &[bool]) -> (bool, &[bool])
    requires { 0 < length told.now }
    ensures { told.now ≡ result.0 ∷ result.1.now }
{
    match told.split_first() {
        Some((stays, behind)) => (*stays, behind),
        None => (true, told),
    }
}

// In a function of its own, so that the loop's proof has no case for each kind of value that is dropped.
fn leave_out(_member: Member) {}

/// The same in place, name by name.
fn last_of_few(members: Vec<Member>) -> Vec<Member>
    ensures { members_of (members_view result.items) ≡ last_of_each (members_of (members_view members.items)) }
{
    let mut kept = members;
    let mut at = 0;
    'members: while at < kept.len() {
        if comes_again(&kept, at) {
            let _repeated = kept.remove(at);
        } else {
            at += 1;
        }
    }
    kept
}

/// Whether a member's name is that of one after it.
fn comes_again(members: &[Member], at: usize) -> bool
    requires { at < length members.now }
    ensures { ComesAgain members.now at result }
{
    let (_, rest) = members.split_at(at);
    match rest.split_first() {
        Some((member, later)) => has_name(later, member.name.as_bytes()),
        None => false,
    }
}

/// Whether one of the members has that name.
fn has_name(members: &[Member], name: &[u8]) -> bool
    ensures { result ≡ list_any (λ m. bytes_eq (out-Member m).name name.now) members.now }
{
    members.iter().any(|member| member.name.as_bytes() == name)
}
