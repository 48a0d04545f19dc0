//! Runs a command over the archive in a file.
use crate::messages::{Heard, say, say_not_closed, say_not_opened};
use crate::run::run_over;
use adx_units::Text;
use day_archive::Keeper;
use sql_archive::{Opening, Work, work_on};

/// The command of these words, and what the system says of its streams.
#[derive(Drop)]
struct Run<'a> {
    words: &'a [Text],
    heard: &'a Heard,
}

impl<'a> Work for Run<'a> {
    fn run<P: Keeper>(self, rt: &HostRuntime, keeper: &mut P) -> u8 {
        run_over(rt, self.words, self.heard, keeper)
    }
}

/// Runs the command on the file of an archive, which is opened when it is first asked for, and says how it ended. The status
/// stays where the file wasn't closed.
pub(crate) fn run_with_archive(
    rt: &HostRuntime,
    words: &[Text],
    path: &str,
    opening: Opening,
) -> u8 {
    let heard = Heard::new();
    let run = Run {
        words,
        heard: &heard,
    };
    let worked = work_on(rt, path, opening, run);
    match worked.unopened {
        Some(unopened) => say_not_opened(rt, path, unopened),
        None => say(rt, words, path, &heard, worked.status),
    }
    match worked.closed {
        Ok(()) => {}
        Err(error) => say_not_closed(rt, path, error),
    }
    worked.status
}
