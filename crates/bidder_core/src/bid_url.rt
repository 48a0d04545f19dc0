//! Where the notices of a bid go, and the members that say so.
ghost use Rattle.std.specs.Prelude.{◌≡◌, ◌++◌, ◌∷◌, [], IfOk, OnOk};
ghost use Rattle.adx_json.specs.View.{members_view};
ghost use Rattle.bidder_core.specs.Answers.{name_of as name_by, notice_member, notice_members, notice_url as url_of, path_of as path_by, told_price as told_price_by};

use crate::member::push_text;
use adx_json::Member;
use adx_units::{OutOfMemory, Text};
use notice_book::NoticeKind;
use std::alloc::Global;

fn name_of(kind: NoticeKind) -> &'static str
    ensures { result.now ≡ name_by kind }
{
    match kind {
        NoticeKind::Win => "nurl",
        NoticeKind::Bill => "burl",
        NoticeKind::Loss => "lurl",
    }
}

fn path_of(kind: NoticeKind) -> &'static str
    ensures { result.now ≡ path_by kind }
{
    match kind {
        NoticeKind::Win => "/n/win?a=${AUCTION_ID}&b=",
        NoticeKind::Bill => "/n/bill?a=${AUCTION_ID}&b=",
        NoticeKind::Loss => "/n/loss?a=${AUCTION_ID}&b=",
    }
}

fn told_price(kind: NoticeKind) -> &'static str
    ensures { result.now ≡ told_price_by kind }
{
    match kind {
        NoticeKind::Win | NoticeKind::Bill => "&p=${AUCTION_PRICE}",
        NoticeKind::Loss => "",
    }
}

/// The URL of a notice of the bid with that id (OpenRTB 2.6, section 4.2.3, nurl, burl and lurl).
fn notice_url(alloc: Global, base: &str, id: &str, kind: NoticeKind) -> Result<Text, OutOfMemory>
    ensures { IfOk result (λ url. url ≡ url_of base.now id.now kind) }
{
    let path = path_of(kind);
    let price = told_price(kind);
    let mut url = String::new(alloc);
    url.reserve(base.len())?;
    url.push_str(base)?;
    url.push_str(path)?;
    url.push_str(id)?;
    url.push_str(price)?;
    Ok(Text::from(url))
}

/// Adds the member with the URL of a notice of the bid with that id.
fn push_notice(
    alloc: Global,
    members: &mut Vec<Member>,
    base: &str,
    id: &str,
    kind: NoticeKind,
) -> Result<(), OutOfMemory>
    ensures { OnOk result (members_view members.new.items ≡ members_view members.old.items ++ notice_member base.now id.now kind ∷ []) }
{
    let url = notice_url(alloc, base, id, kind)?;
    push_text(alloc, members, name_of(kind), url)
}

/// Adds the members with the URLs of the notices of the bid with that id.
pub(crate) fn push_notices(
    alloc: Global,
    members: &mut Vec<Member>,
    base: &str,
    id: &str,
) -> Result<(), OutOfMemory>
    ensures { OnOk result (members_view members.new.items ≡ members_view members.old.items ++ notice_members base.now id.now) }
{
    push_notice(alloc, members, base, id, NoticeKind::Win)?;
    push_notice(alloc, members, base, id, NoticeKind::Bill)?;
    push_notice(alloc, members, base, id, NoticeKind::Loss)?;
    Ok(())
}
