//! The members of a bid that its reader knows, by their names.
ghost use Rattle.std.specs.Prelude.{◌≡◌, ◌<◌, ℕ, None, [], length, option_map};
ghost use Rattle.std.specs.List.{slice_index_or};
ghost use Rattle.adx_json.specs.View.{tree_of, member_of};
ghost use Rattle.adx_json.specs.Walks.{with_member};
ghost use Rattle.rtb_response.specs.BidNames.{bid_names, place_in};

use adx_json::{Json, Member};

/// How many names the reader knows.
pub(crate) const KNOWN_NAMES: usize = 12;

/// The place of a name among those that the reader knows, and their number for any other.
fn place_of(name: &str) -> usize
    ensures { result ≡ place_in bid_names name.now }
{
    match name.as_bytes() {
        b"id" => 0,
        b"impid" => 1,
        b"price" => 2,
        b"nurl" => 3,
        b"burl" => 4,
        b"lurl" => 5,
        b"adid" => 6,
        b"adomain" => 7,
        b"cid" => 8,
        b"cat" => 9,
        b"dealid" => 10,
        b"exp" => 11,
        _ => KNOWN_NAMES,
    }
}

/// Keeps a member's value at the place of its name. The first member of a name counts.
pub(crate) fn keep<'a>(found: &mut [Option<&'a Json>], member: &'a Member)
    requires { length found.old ≡ KNOWN_NAMES }
    ensures { (k : ℕ) → k < KNOWN_NAMES → option_map (λ t. tree_of t.now) (slice_index_or found.new k None)
        ≡ with_member (slice_index_or bid_names k [])
        (option_map (λ t. tree_of t.now) (slice_index_or found.old k None)) (member_of member.now) }
{
    let place = place_of(member.name.as_str());
    if place < KNOWN_NAMES && found[place].is_none() {
        found[place] = Some(&member.value);
    }
}
