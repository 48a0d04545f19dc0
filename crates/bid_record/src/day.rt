//! The line of a record's day.
ghost use Rattle.bid_record.specs.Taking.{IsDayOf};

use crate::fault::Misfit;
use adx_units::Text;
use formats::{behind, is_day};
use std::alloc::Global;
use std::str;

/// The day that a line says.
pub(crate) fn day_of(alloc: Global, line: &[u8]) -> Result<Text, Misfit>
    ensures { IsDayOf line.now result }
{
    let Some(day) = behind(line, b"day ") else {
        return Err(Misfit::Form);
    };
    if !is_day(day) {
        return Err(Misfit::Form);
    }
    let Ok(text) = str::from_utf8(day) else {
        return Err(Misfit::Form);
    };
    match Text::of(alloc, text) {
        Ok(text) => Ok(text),
        Err(_) => Err(Misfit::Memory),
    }
}
