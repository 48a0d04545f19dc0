//! What a link over texts does.
ghost use Rattle.std.specs.Prelude.{◌≡◌, ◌≤◌, length, min, drop, IfOk, IsOk};
ghost use Rattle.adx_links.specs.Links.{Connects, FailsPut, FailsStart, FailsTake, Puts, Takes};
ghost use Rattle.adx_commands.specs.RosterLinks.{begins_with, course_of, started_with};

use crate::link::RosterLink;
use adx_io::{Failed, copy_front};
use adx_links::{Link, NO_CONTENT};
use adx_units::Text;

/// A link after a start, over the texts to come before it.
fn started<'a>(texts: &'a [Text]) -> RosterLink<'a>
    ensures { course_of result ≡ started_with texts.entry.now }
{
    match texts.split_first() {
        Some((text, rest)) => RosterLink {
            to_come: rest,
            answer: text.as_bytes(),
            given: 0,
        },
        None => RosterLink {
            to_come: texts,
            answer: NO_CONTENT.as_bytes(),
            given: 0,
        },
    }
}

impl<'a> RosterLink<'a> {
    /// The link over these texts.
    pub fn over(texts: &'a [Text]) -> RosterLink<'a>
        ensures { course_of result ≡ begins_with texts.entry.now }
    {
        RosterLink {
            to_come: texts,
            answer: b"",
            given: 0,
        }
    }
}

impl<'a> Link for RosterLink<'a> {
    ghost use Rattle.std.specs.Prelude.{None, Some};
    ghost use Rattle.adx_commands.specs.RosterLinks.{course_told, exchanges_told, no_faults};

    ghost faults = { no_faults };

    ghost exchanges = { exchanges_told };

    ghost course = { course_told };

    fn start(&mut self, host: &str, port: u16) -> Result<(), Failed> {
        let _ = host;
        let _ = port;
        *self = started(self.to_come);
        Ok(())
    }

    fn put(&mut self, piece: &[u8]) -> Result<usize, Failed> {
        Ok(piece.len())
    }

    fn take(&mut self, out: &mut [u8]) -> Result<usize, Failed> {
        let (_, left) = self.answer.split_at(self.given);
        let count = out.len().min(left.len());
        copy_front(out, left, count);
        self.given += count;
        Ok(count)
    }
}
