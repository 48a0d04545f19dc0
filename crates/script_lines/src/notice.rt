//! Notices of a script.
ghost use Rattle.std.specs.Prelude.{◌≡◌, IfOk};
ghost use Rattle.adx_json.specs.View.{tree_of};
ghost use Rattle.adx_json.specs.Values.{text_in as text_by};
ghost use Rattle.script_lines.specs.Members.{kind_named as kind_by_word, kind_in, award_in};
ghost use Rattle.script_lines.specs.Meanings.{notice_meaning};
ghost use Rattle.script_lines.specs.Found.{meaning_of_notice};
ghost use Rattle.deal_floor.specs.Reading.{given};

use crate::limits::LAST_AWARD;
use crate::members::whole_in;
use adx_json::{Json, text_in};
use adx_units::{OutOfMemory, Text};
use notice_book::NoticeKind;
use std::alloc::Global;

/// A notice of an award, as a line gives it.
#[derive(Debug, Drop)]
pub struct Notice {
    /// Whether the award was won, is to be billed, or was lost.
    pub kind: NoticeKind,
    /// The auction of the award.
    pub auction: Text,
    /// The award's number.
    pub award: u32,
}

/// The kind of notice that a word names.
fn kind_named(word: &str) -> Option<NoticeKind>
    ensures { result ≡ kind_by_word word.now }
{
    match word {
        "win" => Some(NoticeKind::Win),
        "bill" => Some(NoticeKind::Bill),
        "loss" => Some(NoticeKind::Loss),
        _ => None,
    }
}

/// The notice that a line is with these members. None where it isn't of its form.
pub(crate) fn notice_of(
    alloc: Global,
    kind: &Json,
    auction: Option<&Json>,
    award: Option<&Json>,
) -> Result<Option<Notice>, OutOfMemory>
    ensures { IfOk result (λ found. meaning_of_notice found
        ≡ notice_meaning (kind_in (tree_of kind.now)) (text_by (given auction.entry)) (award_in (given award.entry))) }
{
    let Some(word) = text_in(Some(kind)) else {
        return Ok(None);
    };
    let Some(kind) = kind_named(word.as_str()) else {
        return Ok(None);
    };
    let Some(auction) = text_in(auction) else {
        return Ok(None);
    };
    let Some(award) = whole_in(award, LAST_AWARD) else {
        return Ok(None);
    };
    Ok(Some(Notice {
        kind,
        auction: auction.copy(alloc)?,
        award: award as u32,
    }))
}
