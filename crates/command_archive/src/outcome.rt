//! How a command on the archive ends a run.
ghost use Rattle.std.specs.Prelude.{◌≡◌};
ghost use Rattle.command_archive.specs.Endings.{outcome_of as outcome_by};

use crate::filing::Filing;
use command_runs::Outcome;

/// How a run ends whose call of the keeper ended so.
pub(crate) fn outcome_of(end: Filing) -> Outcome
    ensures { result ≡ outcome_by end }
{
    match end {
        Filing::Done => Outcome::Done,
        Filing::Refused => Outcome::NotKept,
        Filing::Fault => Outcome::KeeperFault,
    }
}
