//! The pages of a bidder.
ghost use Rattle.std.specs.Prelude.{◌≡◌};
ghost use Rattle.bidder_http.specs.Pages.{is_served, methods_of, page_at};

use http_connection::Verb;
use http_service::Methods;
use notice_book::NoticeKind;

/// What a path of a bidder leads to.
#[derive(Clone, Copy, Debug, PartialEq, Eq)]
pub enum Page {
    /// Requests for bids.
    Offers,
    /// Notices of a kind.
    Notices(NoticeKind),
    /// The sums of the bills.
    Books,
    /// The notices that were counted.
    Ledger,
}

/// The page at a path; None where there is none.
pub(crate) fn page_of(path: &[u8]) -> Option<Page>
    ensures { result ≡ page_at path.now }
{
    if path == b"/".as_slice() {
        Some(Page::Offers)
    } else if path == b"/n/win".as_slice() {
        Some(Page::Notices(NoticeKind::Win))
    } else if path == b"/n/bill".as_slice() {
        Some(Page::Notices(NoticeKind::Bill))
    } else if path == b"/n/loss".as_slice() {
        Some(Page::Notices(NoticeKind::Loss))
    } else if path == b"/books".as_slice() {
        Some(Page::Books)
    } else if path == b"/ledger".as_slice() {
        Some(Page::Ledger)
    } else {
        None
    }
}

impl Page {
    /// Whether the page is served by that method.
    pub(crate) fn is_for(self, verb: Verb) -> bool
        ensures { result ≡ is_served self verb }
    {
        match (self, verb) {
            (Page::Offers, Verb::Post) => true,
            (Page::Offers, _) => false,
            (_, Verb::Get) => true,
            (_, _) => false,
        }
    }

    /// The one method that serves it.
    pub(crate) fn methods(self) -> Methods
        ensures { result ≡ methods_of self }
    {
        match self {
            Page::Offers => Methods::Post,
            Page::Notices(_) => Methods::Get,
            Page::Books => Methods::Get,
            Page::Ledger => Methods::Get,
        }
    }
}
