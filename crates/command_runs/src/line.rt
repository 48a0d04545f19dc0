//! The first line of a document.
ghost use Rattle.std.specs.Prelude.{IfErr, IfOk};
ghost use Rattle.command_runs.specs.FirstLines.{HasNoLine, IsShortLine};

use crate::first::NoLine;
use crate::limits::LINE_LIMIT;
use formats::first_line;

/// The first line of a document, without its newline. `Cut`: the document has no newline. `Long`: the line, or a document
/// without a newline, is longer than `LINE_LIMIT`.
pub fn line_of(document: &[u8]) -> Result<&[u8], NoLine>
    ensures found { IfOk result (λ line. IsShortLine document.now line.now) }
    ensures none { IfErr result (λ why. HasNoLine why document.now) }
{
    match first_line(document) {
        Some((line, _)) => {
            if line.len() > LINE_LIMIT {
                return Err(NoLine::Long);
            }
            Ok(line)
        }
        None => {
            if document.len() > LINE_LIMIT {
                return Err(NoLine::Long);
            }
            Err(NoLine::Cut)
        }
    }
}
