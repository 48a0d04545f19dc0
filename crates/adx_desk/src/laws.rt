//! Laws of the definitions: each is a function without a body, whose contract is the law. They say that an opening comes
//! to one thing: a history, or a refusal.
ghost use Rattle.std.specs.Prelude.{◌≡◌, List, ℕ};
ghost use Rattle.adx_desk.specs.Calls.{HasOneHistory, HasOneRefusal, RefusalsExclude};

/// A file represents at most one history.
pub fn one_history()
    ensures { HasOneHistory }
{}

/// A file that represents a history is refused by no fault.
pub fn refusals_exclude()
    ensures { RefusalsExclude }
{}

/// A file is refused by at most one fault.
pub fn one_refusal()
    ensures { HasOneRefusal }
{}
