//! How a run ends by the end of its connection.
ghost use Rattle.std.specs.Prelude.{◌≡◌};
ghost use Rattle.http_service.specs.ConnectionRuns.{result_by};

use adx_io::Stop;
use command_runs::Outcome;
use http_connection::ConnEnd;

/// How a run ends whose connection ended so: a connection that was read to its end is done, whatever its last message was.
pub fn result_of(end: ConnEnd) -> Result<Outcome, Stop>
    ensures { result ≡ result_by end }
{
    match end {
        ConnEnd::Closed => Ok(Outcome::Done),
        ConnEnd::Cut => Ok(Outcome::Done),
        ConnEnd::Refused { .. } => Ok(Outcome::Done),
        ConnEnd::Spent => Ok(Outcome::Done),
        ConnEnd::ReadFault => Err(Stop::ReadFault),
        ConnEnd::WriteFault => Err(Stop::WriteFault),
        ConnEnd::OutOfMemory => Err(Stop::OutOfMemory),
    }
}
