//! Where the notices of an award are in the history.
ghost use Rattle.std.specs.Prelude.{◌≡◌};
ghost use Rattle.day_machine.specs.LedgerState.{place_of, placed};

use notice_book::NoticeKind;

/// The places of an award's win, and of the bill or the loss that ended it. They are read only where
/// the award has them.
#[derive(Clone, Copy)]
pub(crate) struct Places {
    pub(crate) win: u32,
    pub(crate) end: u32,
}

/// The place of the notice of that kind.
pub(crate) fn place_at(kind: NoticeKind, places: Places) -> u32
    ensures { result ≡ place_of kind places }
{
    match kind {
        NoticeKind::Win => places.win,
        NoticeKind::Bill | NoticeKind::Loss => places.end,
    }
}

/// The places with that of a notice of that kind.
pub(crate) fn with_place(kind: NoticeKind, place: u32, places: Places) -> Places
    ensures { result ≡ placed kind place places }
{
    match kind {
        NoticeKind::Win => Places {
            win: place,
            ..places
        },
        NoticeKind::Bill | NoticeKind::Loss => Places {
            end: place,
            ..places
        },
    }
}
