//! The law of shares, where each exchange has a day.

ghost use Rattle.share_rules.specs.Days.{AChangeIsTaken, NeverMoreThanTheWhole};

/// A change that comes to an exchange is the machine's message that comes, where the day answers that it is done, done before or below
/// the committed money, and else it changes nothing of the budget. It does nothing.
pub fn a_change_is_taken()
    ensures { AChangeIsTaken }
{}

/// Whatever happens on the exchanges, between them and their controllers: the budgets after their histories come to at most the
/// whole, and so does what is committed in them. It does nothing.
pub fn days_never_more_than_the_whole()
    ensures { NeverMoreThanTheWhole }
{}
