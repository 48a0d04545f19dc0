//! The row that a line of a certificate has.
ghost use Rattle.std.specs.Prelude.{◌≡◌};
ghost use Rattle.formats.specs.Parts.{Finds};
ghost use Rattle.dual_cert.specs.Reading.{indexed_at, bound_at as read_bound_at, row_at as read_row_at};

use formats::{behind, byte_behind, is_done, number, wide_number};
use itoa::Buffer;

/// A line of a certificate behind the first.
#[derive(Clone, Copy, Debug, PartialEq, Eq)]
pub(crate) enum Row {
    Alpha(u64),
    Beta(u64),
    Bound(u128),
}

/// The number behind this word, this index and a space, and nothing else.
#[tactic(auto, unfolding(crate::specs::Reading::indexed_at))]
fn indexed(line: &[u8], word: &[u8], index: usize) -> Option<u64>
    ensures { Finds (λ n. n) result (indexed_at word.now index line.now) }
{
    let mut digits = Buffer::new();
    let rest = behind(line, word)?;
    let rest = behind(rest, digits.format(index).as_bytes())?;
    let rest = byte_behind(rest, b' ')?;
    let (value, rest) = number(rest)?;
    is_done(rest)?;
    Some(value)
}

#[tactic(auto, unfolding(crate::specs::Reading::bound_at))]
fn bound_of(line: &[u8]) -> Option<u128>
    ensures { Finds (λ n. n) result (read_bound_at line.now) }
{
    let rest = behind(line, b"bound ")?;
    let (value, rest) = wide_number(rest)?;
    is_done(rest)?;
    Some(value)
}

/// The row of a line behind so many alphas and betas. None where the line is none that may come there.
#[tactic(auto, unfolding(crate::specs::Reading::row_at))]
pub(crate) fn row_of(line: &[u8], alphas: usize, betas: usize) -> Option<Row>
    ensures { Finds (λ row. row) result (read_row_at alphas betas line.now) }
{
    if betas == 0 {
        if let Some(alpha) = indexed(line, b"alpha ", alphas) {
            return Some(Row::Alpha(alpha));
        }
    }
    if let Some(beta) = indexed(line, b"beta ", betas) {
        return Some(Row::Beta(beta));
    }
    match bound_of(line) {
        Some(bound) => Some(Row::Bound(bound)),
        None => None,
    }
}
