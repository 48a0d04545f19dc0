//! The notice URLs that the exchange names in its answer.
ghost use Rattle.std.specs.Prelude.{◌≡◌, ◌++◌, OnOk, string_bytes};
ghost use Rattle.adx_units.specs.JsonTexts.{text_spelling};
ghost use Rattle.rtb_response.specs.Notices.{path_of as path_by, url_of};
ghost use Rattle.rtb_response.specs.Parts.{front_of as front_by};

use adx_units::{OutOfMemory, push_text};
use itoa::Buffer;

/// What a notice tells of an award.
#[derive(Clone, Copy, Debug, PartialEq, Eq)]
pub(crate) enum Notice {
    Win,
    Bill,
    Loss,
}

/// What the notice URLs of an answer have in common.
#[derive(Clone, Copy, Debug)]
pub(crate) struct Addressed<'a> {
    /// Where each URL begins.
    pub base: &'a str,
    /// The id of the auction, percent-encoded.
    pub auction: &'a str,
}

fn path_of(notice: Notice) -> &'static str
    ensures { result.now ≡ path_by notice }
{
    match notice {
        Notice::Win => "/notice/win?auction=",
        Notice::Bill => "/notice/bill?auction=",
        Notice::Loss => "/notice/loss?auction=",
    }
}

/// Makes `url` the URL of a notice.
fn set_url(
    url: &mut String,
    to: &Addressed<'_>,
    award: u32,
    notice: Notice,
) -> Result<(), OutOfMemory>
    ensures { OnOk result (string_bytes url.new ≡ url_of to.now.base.now to.now.auction.now award notice) }
{
    let mut number = Buffer::new();
    url.clear();
    url.push_str(to.base)?;
    url.push_str(path_of(notice))?;
    url.push_str(to.auction)?;
    url.push_str("&bid=")?;
    url.push_str(number.format(award))?;
    Ok(())
}

/// The name of the member that has the URL of a notice, between its comma and its colon.
fn front_of(notice: Notice) -> &'static str
    ensures { result.now ≡ front_by notice }
{
    match notice {
        Notice::Win => ",\"nurl\":",
        Notice::Bill => ",\"burl\":",
        Notice::Loss => ",\"lurl\":",
    }
}

/// Puts the member with the URL of a notice at the end, behind others. The URL is made in `url`, which serves again.
pub(crate) fn push_notice(
    out: &mut String,
    url: &mut String,
    to: &Addressed<'_>,
    award: u32,
    notice: Notice,
) -> Result<(), OutOfMemory>
    ensures { OnOk result (string_bytes out.new ≡ string_bytes out.old
        ++ (front_by notice ++ text_spelling (url_of to.now.base.now to.now.auction.now award notice))) }
{
    set_url(url, to, award, notice)?;
    out.push_str(front_of(notice))?;
    push_text(out, url.as_str())?;
    Ok(())
}
