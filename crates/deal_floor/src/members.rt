//! The members of a roster, as they lie in its tree, by one walk over it.
ghost use Rattle.std.specs.Prelude.{◌≡◌, codes};
ghost use Rattle.adx_json.specs.Named.{member_in};
ghost use Rattle.adx_json.specs.View.{tree_of};
ghost use Rattle.deal_floor.specs.Reading.{given};

use adx_json::{Json, find_members};

/// The members of a roster.
#[derive(Clone, Copy)]
pub(crate) struct RosterMembers<'a> {
    pub day: Option<&'a Json>,
    pub base: Option<&'a Json>,
    pub now: Option<&'a Json>,
    pub bidders: Option<&'a Json>,
    pub campaigns: Option<&'a Json>,
    pub replies: Option<&'a Json>,
    pub limits: Option<&'a Json>,
}

pub(crate) fn roster_members(tree: &Json) -> RosterMembers<'_>
    ensures day { given result.day ≡ member_in (codes "day") (tree_of tree.now) }
    ensures base { given result.base ≡ member_in (codes "base") (tree_of tree.now) }
    ensures now { given result.now ≡ member_in (codes "now") (tree_of tree.now) }
    ensures bidders { given result.bidders ≡ member_in (codes "bidders") (tree_of tree.now) }
    ensures campaigns { given result.campaigns ≡ member_in (codes "campaigns") (tree_of tree.now) }
    ensures replies { given result.replies ≡ member_in (codes "replies") (tree_of tree.now) }
    ensures limits { given result.limits ≡ member_in (codes "limits") (tree_of tree.now) }
{
    let mut found = [None; 7];
    find_members(
        Some(tree),
        &[
            "day",
            "base",
            "now",
            "bidders",
            "campaigns",
            "replies",
            "limits",
        ],
        &mut found,
    );
    let [day, base, now, bidders, campaigns, replies, limits] = found;
    RosterMembers {
        day,
        base,
        now,
        bidders,
        campaigns,
        replies,
        limits,
    }
}
