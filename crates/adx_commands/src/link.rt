//! A link that answers by a list of texts.
ghost use Rattle.std.specs.Prelude.{◌≤◌, length};

use adx_units::Text;

/// A link that answers at its k-th start, from 0, the k-th text of a list, whatever host is called, and past the list's end
/// `NO_CONTENT`. Before its first start it answers nothing. No call of it fails, and none takes memory. It reports its plan
/// and what it answered since a start, and keeps nothing of what it is asked.
#[derive(Debug, Drop)]
pub struct RosterLink<'a> {
    pub(crate) to_come: &'a [Text],
    pub(crate) answer: &'a [u8],
    pub(crate) given: usize,
    ghost within: { given ≤ length answer.now },
}
