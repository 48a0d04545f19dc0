//! Reads a record.
ghost use Rattle.std.specs.Prelude.{◌≡◌, ◌↔◌, ◌++◌, ◌∷◌, [], codes, ◌||◌, ◌==◌, List, ℕ, IfOk, IfErr, IsTrue, drop};
ghost use Rattle.formats.specs.Parts.{ended};
ghost use Rattle.bid_record.specs.declared.record.Record.{Record};
ghost use Rattle.bid_record.specs.Lines.{head_line, day_line, document};
ghost use Rattle.std.specs.List.{flat_map};
ghost use Rattle.bid_record.specs.Refusals.{GivesRecord, IsRefusal};
ghost use Rattle.bid_record.specs.Taking.{IsHead, IsDay, IsFormatOf, IsOpened, IsBehindLast, IsFound};

use crate::day::day_of;
use crate::fault::{Misfit, RecordFault};
use crate::record::Record;
use crate::take::{Rows, take_line};
use adx_units::{Sequence, Text};
use formats::first_line;
use std::alloc::Global;

/// The record whose document stands at the front of these bytes, and the number of that document's
/// bytes. What stands behind it is free.
pub fn read_record(alloc: Global, bytes: &[u8]) -> Result<(Record, usize), RecordFault>
    // What is read is spelled so.
    ensures found { IfOk result (λ p. bytes.now ≡ document p.0 ++ drop p.1 bytes.now) }
    // What is spelled so is read, unless memory runs out.
    ensures only { (r : Record) (rest : List ℕ) → bytes.now ≡ document r ++ rest → GivesRecord r result }
    // A refusal names the first line that fails, by its kind.
    ensures fault { IfErr result (IsRefusal bytes.now) }
{
    let (format, rest) = match head(bytes) {
        Ok(found) => found,
        Err(fault) => return Err(fault),
    };
    match second_line(alloc, bytes, format, rest) {
        Ok((day, rest)) => read_rows(alloc, bytes, format, day, rest),
        Err(fault) => Err(fault),
    }
}

/// The format that the first line says, and the bytes behind it.
fn head(bytes: &[u8]) -> Result<(u8, &[u8]), RecordFault>
    ensures { IsHead bytes.now result }
{
    let Some((line, rest)) = first_line(bytes) else {
        return Err(RecordFault::Cut);
    };
    match format_of(line) {
        Some(format) => Ok((format, rest)),
        None => Err(RecordFault::Line { n: 1 }),
    }
}

/// The format that a first line says.
fn format_of(line: &[u8]) -> Option<u8>
    ensures { IsFormatOf line.now result }
{
    if is_first(line) {
        Some(1)
    } else if is_second(line) {
        Some(2)
    } else {
        None
    }
}

fn is_first(line: &[u8]) -> bool
    ensures { IsTrue result ↔ (line.now ≡ codes "adx-record 1") }
{
    line == b"adx-record 1".as_slice()
}

fn is_second(line: &[u8]) -> bool
    ensures { IsTrue result ↔ (line.now ≡ codes "adx-record 2") }
{
    line == b"adx-record 2".as_slice()
}

/// The day that the second line says, and the bytes behind it.
fn second_line<'a>(
    alloc: Global,
    bytes: &[u8],
    format: u8,
    rest: &'a [u8],
) -> Result<(Text, &'a [u8]), RecordFault>
    requires known { IsTrue (format == 1 || format == 2) }
    requires whole { bytes.now ≡ ended (head_line format) ++ rest.now }
    ensures { IsDay bytes.now format result }
{
    let Some((line, behind)) = first_line(rest) else {
        return Err(RecordFault::Cut);
    };
    match day_of(alloc, line) {
        Ok(day) => Ok((day, behind)),
        Err(Misfit::Form) => Err(RecordFault::Line { n: 2 }),
        Err(Misfit::Memory) => Err(RecordFault::OutOfMemory),
    }
}

/// The record of the lines behind the second, and the number of its document's bytes.
fn read_rows(
    alloc: Global,
    bytes: &[u8],
    format: u8,
    day: Text,
    rest: &[u8],
) -> Result<(Record, usize), RecordFault>
    requires opened { IsOpened format day }
    requires whole { bytes.now ≡ flat_map ended (head_line format ∷ (day_line day ∷ [])) ++ rest.now }
    ensures found { IfOk result (λ p. IsFound bytes.now p) }
    ensures fault { IfErr result (IsRefusal bytes.now) }
{
    let mut rows = Rows {
        campaigns: Vec::new(alloc),
        imps: Vec::new(alloc),
    };
    let mut left = rest;
    let mut n: u64 = 3;
    'lines: loop {
        let Some((line, behind)) = first_line(left) else {
            return Err(RecordFault::Cut);
        };
        match take_line(alloc, format, &mut rows, line, n) {
            Ok(false) => {}
            Ok(true) => return Ok(whole(bytes, format, day, rows, behind)),
            Err(fault) => return Err(fault),
        }
        left = behind;
        n += 1;
    }
}

/// The record of these rows, and the number of its document's bytes.
fn whole(bytes: &[u8], format: u8, day: Text, rows: Rows, rest: &[u8]) -> (Record, usize)
    requires { IsBehindLast bytes.now format day rows.campaigns.items rows.imps.items rest.now }
    ensures { IsFound bytes.now result }
{
    let len = bytes.len() - rest.len();
    let record = Record {
        format,
        day,
        campaigns: Sequence::from(rows.campaigns),
        imps: Sequence::from(rows.imps),
    };
    (record, len)
}
