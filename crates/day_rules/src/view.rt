//! What a loop that answers for the meters needs of where it reads them.
ghost use Rattle.std.specs.Prelude.{◌≡◌, List};
ghost use mathlib.Core.List.{IsPrefix};
ghost use Rattle.day_rules.specs.Steps.{meters_of};
ghost use Rattle.day_rules.specs.declared.step.MeterStep.{MeterStep};

use crate::meters::Meters;

/// Something that meters are read from. A contract sees the steps that it has seen so far.
pub trait MeterView {
    /// What says where it reads from. No value of it is made.
    type Origin;

    ghost seen: { Self → List MeterStep };

    ghost origin: { Self → Self.Origin };

    /// The meters of steps that begin with all that were seen before. It waits for nobody.
    fn read(&mut self) -> Meters
        ensures later { IsPrefix (seen self.old) (seen self.new) }
        ensures meters { result ≡ meters_of (seen self.new) }
        ensures origin { origin self.new ≡ origin self.old };
}
