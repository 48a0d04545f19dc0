//! Laws of steps that come one after another: each is a function without a body, whose contract is the law.
ghost use Rattle.adx_desk.specs.Laws.{EachBetween, OwnedRun};

/// Between two steps on a shared desk a history lies between those of the two.
pub fn each_between()
    ensures { EachBetween }
{}

/// On a desk that one calls alone, each step is at the history after the calls before it.
pub fn owned_run()
    ensures { OwnedRun }
{}
