//! Which days an archive takes.
ghost use Rattle.std.specs.Prelude.{◌≡◌, ◌≤◌, ◌<◌, ◌+◌, ◌↔◌, length, pos, IsTrue};
ghost use Rattle.jiff.specs.Words.{IsDate as IsCalendarDate};
ghost use Rattle.day_archive.specs.Dates.{IsDate, is_upto as is_upto_text, two_digits as two_digits_at};
ghost use Rattle.day_archive.specs.Unfits.{IsFitDay, IsFitRange};

use adx_units::{OutOfMemory, Text};
use formats::is_day;
use jiff::civil::Date;
use std::alloc::Global;

/// Why days aren't taken.
#[derive(Debug, Drop)]
pub enum Unfit {
    /// The text isn't a date.
    Date { day: Text },
    /// The first day comes after the last.
    Range,
    /// Memory was refused.
    OutOfMemory,
}

/// Whether a text is a date.
pub(crate) fn is_date(day: &str) -> bool
    ensures { IsTrue result ↔ IsDate day.now }
{
    let bytes = day.as_bytes();
    if !is_day(bytes) {
        return false;
    }
    let year = 100 * two_digits(bytes, 0) + two_digits(bytes, 2);
    is_in_calendar(year, two_digits(bytes, 5), two_digits(bytes, 8))
}

/// Whether the calendar has the day of a year, a month and a day of the month.
fn is_in_calendar(year: u32, month: u32, day: u32) -> bool
    ensures { IsTrue result ↔ IsCalendarDate (pos year) (pos month) (pos day) }
{
    let (Ok(year), Ok(month), Ok(day)) = (
        i16::try_from(year),
        i8::try_from(month),
        i8::try_from(day),
    ) else {
        return false;
    };
    Date::new(year, month, day).is_ok()
}

/// The number of the two digits at a place.
fn two_digits(day: &[u8], at: usize) -> u32
    requires { at + 1 < length day.now }
    ensures value { result ≡ two_digits_at at day.now }
    ensures few { result ≤ 2277 }
{
    let tens = u32::from(day[at].saturating_sub(b'0'));
    let ones = u32::from(day[at + 1].saturating_sub(b'0'));
    10 * tens + ones
}

/// Whether a day isn't later than another.
pub(crate) fn is_upto(day: &str, other: &str) -> bool
    ensures { result ≡ is_upto_text day.now other.now }
{
    day.as_bytes().cmp(other.as_bytes()).is_le()
}

/// A text that isn't a date is unfit, and is named.
pub fn check_day(alloc: Global, day: &str) -> Result<(), Unfit>
    ensures { IsFitDay day.now result }
{
    if is_date(day) {
        return Ok(());
    }
    match Text::of(alloc, day) {
        Ok(day) => Err(Unfit::Date { day }),
        Err(_) => Err(Unfit::OutOfMemory),
    }
}

/// The first of two texts that isn't a date is unfit, and then a first day that comes after the last.
pub fn check_range(alloc: Global, first: &str, last: &str) -> Result<(), Unfit>
    ensures { IsFitRange first.now last.now result }
{
    match check_day(alloc, first) {
        Ok(()) => {}
        Err(unfit) => return Err(unfit),
    }
    match check_day(alloc, last) {
        Ok(()) => {}
        Err(unfit) => return Err(unfit),
    }
    if is_upto(first, last) {
        Ok(())
    } else {
        Err(Unfit::Range)
    }
}
