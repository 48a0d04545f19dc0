//! A bidder's ledger, read line by line.
ghost use Rattle.std.specs.Prelude.{◌≡◌, ◌≢◌, ◌≤◌, ◌++◌, [], IfOk, List, OnOk, length, ℕ};
ghost use Rattle.std.specs.List.{cons_option};
ghost use Rattle.adx_io.specs.Lines.{HasNoNewline};
ghost use Rattle.adx_io.specs.Streams.{WhereTold};
ghost use Rattle.adx_io.specs.Talk.{HasCauses};
ghost use Rattle.adx_io.specs.TalkState.{place_of, state_of};
ghost use Rattle.adx_io.specs.declared.line_buffer.TheConstants.{CHUNK};
ghost use Rattle.command_reconcile.specs.Ledgers.{row_bill};
ghost use Rattle.command_reconcile.specs.Reading.{IsLastPiece, OfKept, ReadsLedger, TakesRow};

use crate::bill::Bill;
use crate::row::row_of;
use adx_io::{LineBuffer, Next, Sink, Source, Stop, Talk};
use adx_units::OutOfMemory;
use bidder_core::LedgerRow;
use command_runs::LINE_LIMIT;
use notice_book::NoticeKind;
use std::alloc::Global;

/// Adds the bill that a row tells, if it does.
fn keep_bill(bills: &mut Vec<Bill>, row: LedgerRow) -> Result<(), OutOfMemory>
    ensures { OnOk result (bills.new.items ≡ bills.old.items ++ cons_option (row_bill row) []) }
{
    match row.kind {
        NoticeKind::Bill => {
            bills.push(Bill {
                auction: row.auction,
                price: row.price,
            })?;
            Ok(())
        }
        NoticeKind::Win | NoticeKind::Loss => Ok(()),
    }
}

/// Adds the bill of the line that the buffer keeps, and answers whether the line tells a row.
fn take_row(alloc: Global, buffer: &LineBuffer, bills: &mut Vec<Bill>) -> Result<bool, OutOfMemory>
    ensures { IfOk result (λ tells. OfKept buffer.now.overlong buffer.now.line (TakesRow bills.old.items bills.new.items tells)) }
{
    let Some(line) = buffer.line() else {
        return Ok(false);
    };
    match row_of(alloc, line)? {
        Some(row) => {
            keep_bill(bills, row)?;
            Ok(true)
        }
        None => Ok(false),
    }
}

/// The number of the last line, where a piece without a newline is there.
fn last_piece(buffer: &LineBuffer, number: u64) -> Option<u64>
    ensures { OfKept buffer.now.overlong buffer.now.line (IsLastPiece number result) }
{
    match buffer.line() {
        Some(piece) => { if piece.is_empty() { None } else { Some(number) } }
        None => Some(number),
    }
}

/// Reads a ledger to its end, and gathers its bills. None: all lines tell rows. Some: the number of the first line that
/// doesn't, counted from 1, and nothing more is asked of the source.
pub(crate) fn read_ledger<S: Source, K: Sink>(
    alloc: Global,
    talk: &mut Talk<'_, S, K>,
    bills: &mut Vec<Bill>,
) -> Result<Option<u64>, Stop>
    requires unwritten { (state_of talk.old).out ≡ [] }
    requires ahead { length talk.old.buffer.now.pending ≤ CHUNK }
    requires empty { bills.old.items ≡ [] }
    ensures reads { WhereTold (state_of talk.old).tape (S.tape talk.new.source.now) (ReadsLedger (state_of talk.old).allowed bills.new.items result) }
    ensures held { (state_of talk.new).held ≡ (state_of talk.old).held }
    ensures unwritten { OnOk result ((state_of talk.new).out ≡ []) }
    ensures causes { HasCauses (state_of talk.old) (state_of talk.new) result }
    ensures same { place_of talk.new ≡ place_of talk.old }
{
    let mut number: u64 = 1;
    'lines: loop {
        match talk.next_line(LINE_LIMIT) {
            Ok(Next::Line) => match take_row(alloc, talk.buffer, bills) {
                Ok(true) => match number.checked_add(1) {
                    Some(next) => number = next,
                    None => return Err(Stop::OutOfMemory),
                },
                Ok(false) => return Ok(Some(number)),
                Err(_) => return Err(Stop::OutOfMemory),
            },
            Ok(Next::End) => return Ok(last_piece(talk.buffer, number)),
            Ok(Next::PastLimit) => return Ok(Some(number)),
            Err(stop) => return Err(stop),
        }
    }
}
