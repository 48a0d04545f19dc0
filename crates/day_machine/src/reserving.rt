//! What is reserved of all campaigns' budgets.
ghost use Rattle.std.specs.Prelude.{◌≡◌, ◌<◌, ◌^◌};
ghost use Rattle.day_machine.specs.Metered.{reserved_in_all};

use campaign_book::Book;

/// The reserved money of all campaigns, in units.
pub(crate) fn reserved_of(book: &Book) -> u64
    requires { reserved_in_all book.now < 2 ^ 64 }
    ensures { result ≡ reserved_in_all book.now }
{
    let mut sum = 0;
    for c in 0..book.count() {
        sum += book.reserved(c).0;
    }
    sum
}
