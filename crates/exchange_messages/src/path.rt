//! The paths that an exchange serves.
ghost use Rattle.std.specs.Prelude.{◌≡◌};
ghost use Rattle.exchange_messages.specs.Paths.{is_served as served_by, methods_of as methods_by, path_named as path_by};

use adx_http::Verb;
use http_service::Methods;
use notice_book::NoticeKind;

/// A path that an exchange serves.
#[derive(Clone, Copy, Debug, PartialEq, Eq)]
pub enum Path {
    /// `/openrtb`: a request for bids (OpenRTB 2.6, section 2.1).
    OpenRtb,
    /// `/notice/win`, `/notice/bill` or `/notice/loss`: a notice of that kind.
    Notice(NoticeKind),
    /// `/books`: the books of the day.
    Books,
    /// `/meters`: the meters of the day.
    Meters,
    /// `/budget`: a change of a campaign's budget.
    Budget,
}

/// The path with this spelling; None where none is served.
pub(crate) fn path_named(text: &[u8]) -> Option<Path>
    ensures { result ≡ path_by text.now }
{
    if text == b"/openrtb".as_slice() {
        Some(Path::OpenRtb)
    } else if text == b"/notice/win".as_slice() {
        Some(Path::Notice(NoticeKind::Win))
    } else if text == b"/notice/bill".as_slice() {
        Some(Path::Notice(NoticeKind::Bill))
    } else if text == b"/notice/loss".as_slice() {
        Some(Path::Notice(NoticeKind::Loss))
    } else if text == b"/books".as_slice() {
        Some(Path::Books)
    } else if text == b"/meters".as_slice() {
        Some(Path::Meters)
    } else if text == b"/budget".as_slice() {
        Some(Path::Budget)
    } else {
        None
    }
}

/// Whether the path is served by a method of that kind.
pub(crate) fn is_served(path: Path, verb: Verb) -> bool
    ensures { result ≡ served_by path verb }
{
    match path {
        Path::OpenRtb | Path::Budget => match verb {
            Verb::Post => true,
            Verb::Get | Verb::Head | Verb::Other => false,
        },
        Path::Notice(_) => match verb {
            Verb::Get | Verb::Post => true,
            Verb::Head | Verb::Other => false,
        },
        Path::Books | Path::Meters => match verb {
            Verb::Get => true,
            Verb::Head | Verb::Post | Verb::Other => false,
        },
    }
}

/// The methods that serve a path.
pub(crate) fn methods_of(path: Path) -> Methods
    ensures { result ≡ methods_by path }
{
    match path {
        Path::OpenRtb | Path::Budget => Methods::Post,
        Path::Notice(_) => Methods::GetAndPost,
        Path::Books | Path::Meters => Methods::Get,
    }
}
