//! What was counted for one award.
ghost use Rattle.std.specs.Prelude.{◌≡◌};
ghost use Rattle.bidder_core.specs.LedgerState.{noticed_by};

use notice_book::{End, NoticeKind};

/// Whether a win of an award was counted, and the end that a bill or a loss gave it.
#[derive(Clone, Copy)]
pub(crate) struct Noticed {
    pub(crate) won: bool,
    pub(crate) end: Option<End>,
}

/// The award after a notice that counts.
pub(crate) fn with_notice(kind: NoticeKind, award: Noticed) -> Noticed
    ensures { result ≡ noticed_by kind award }
{
    match kind {
        NoticeKind::Win => Noticed { won: true, ..award },
        NoticeKind::Bill => Noticed {
            end: Some(End::Billed),
            ..award
        },
        NoticeKind::Loss => Noticed {
            end: Some(End::Lost),
            ..award
        },
    }
}
