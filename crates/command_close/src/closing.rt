//! The document of a closed day.
ghost use Rattle.std.specs.Prelude.{◌≡◌, ◌++◌, [], length, map};
ghost use Rattle.std.specs.List.{enumerate_from, flat_map};
ghost use Rattle.adx_desk.specs.Rosters.{desk_terms};
ghost use Rattle.adx_io.specs.Talk.{HasCauses};
ghost use Rattle.adx_io.specs.TalkState.{place_of, state_of};
ghost use Rattle.bid_record.specs.Lines.{document as record_document, end_line, imp_line};
ghost use Rattle.dual_cert.specs.Lines.{beta_line, bound_line, document as cert_document};
ghost use Rattle.formats.specs.Parts.{ended};
ghost use Rattle.day_rules.specs.DayState.{IsDay};
ghost use Rattle.history_runs.specs.Histories.{Printed};
ghost use Rattle.history_runs.specs.Runs.{RunsHistory};
ghost use Rattle.command_close.specs.ClosedDays.{HasOneDocument, IsClosedDay};
ghost use Rattle.history_runs.specs.Putting.{PutsBytes, PutsPiece};

use crate::pieces::{Lines, put_lines};
use adx_io::{Sink, Source, Stop, Talk};
use adx_units::OutOfMemory;
use bid_record::{ImpRow, Record, push_end_line, push_imp_line, push_record_front};
use command_runs::Outcome;
use day_journal::Disk;
use day_rules::Entry;
use deal_floor::Roster;
use dual_cert::{Cert, push_beta_line, push_bound_line, push_cert_front};
use history_runs::{Print, run_history};
use served_record::{ClosedDay, close_day};
use std::alloc::Global;
use std::mem::forget;

/// The lines of a record's impressions.
#[derive(Drop)]
struct ImpLines<'a> {
    imps: &'a [ImpRow],
}

impl Lines for ImpLines<'_> {
    ghost use Rattle.std.specs.Prelude.{map};
    ghost use Rattle.std.specs.List.{enumerate_from};
    ghost use Rattle.bid_record.specs.Lines.{imp_line};

    ghost lines = { λ s. map imp_line (enumerate_from 0 s.imps.now) };

    fn count(&self) -> usize {
        self.imps.len()
    }

    #[tactic(auto, using(crate::proofs::Steps::numbered_length))]
    fn push_line(&self, at: usize, out: &mut String) -> Result<(), OutOfMemory> {
        push_imp_line(out, at as u64, &self.imps[at])
    }
}

/// The lines of a certificate's betas.
#[derive(Drop)]
struct BetaLines<'a> {
    betas: &'a [u64],
}

impl Lines for BetaLines<'_> {
    ghost use Rattle.std.specs.Prelude.{map};
    ghost use Rattle.std.specs.List.{enumerate_from};
    ghost use Rattle.dual_cert.specs.Lines.{beta_line};

    ghost lines = { λ s. map beta_line (enumerate_from 0 s.betas.now) };

    fn count(&self) -> usize {
        self.betas.len()
    }

    #[tactic(auto, using(crate::proofs::Steps::numbered_length))]
    fn push_line(&self, at: usize, out: &mut String) -> Result<(), OutOfMemory> {
        push_beta_line(out, at as u64, self.betas[at])
    }
}

/// Writes a record's last line after those of its impressions, which are put in pieces.
fn put_imps<S: Source, K: Sink>(imps: &[ImpRow], talk: &mut Talk<'_, S, K>) -> Result<(), Stop>
    ensures puts { PutsPiece (state_of talk.old).held (state_of talk.new).held
        ((state_of talk.old).out ++ (flat_map ended (map imp_line (enumerate_from 0 imps.now)) ++ ended (end_line (length imps.now))))
        (state_of talk.new).out result }
    ensures rest { talk.new.source ≡ talk.old.source }
    ensures causes { HasCauses (state_of talk.old) (state_of talk.new) result }
    ensures same { place_of talk.new ≡ place_of talk.old }
{
    match put_lines(&ImpLines { imps }, talk) {
        Ok(()) => match push_end_line(talk.out, imps.len() as u64) {
            Ok(()) => Ok(()),
            Err(_) => Err(Stop::OutOfMemory),
        },
        Err(stop) => Err(stop),
    }
}

/// Puts the lines of a record in pieces.
fn put_record<S: Source, K: Sink>(day: &Record, talk: &mut Talk<'_, S, K>) -> Result<(), Stop>
    ensures puts { PutsPiece (state_of talk.old).held (state_of talk.new).held
        ((state_of talk.old).out ++ record_document day.now) (state_of talk.new).out result }
    ensures rest { talk.new.source ≡ talk.old.source }
    ensures causes { HasCauses (state_of talk.old) (state_of talk.new) result }
    ensures same { place_of talk.new ≡ place_of talk.old }
{
    match push_record_front(talk.out, day) {
        Ok(()) => put_imps(day.imps.as_slice(), talk),
        Err(_) => Err(Stop::OutOfMemory),
    }
}

/// Writes a certificate's last line after those of its betas, which are put in pieces.
fn put_betas<S: Source, K: Sink>(
    betas: &[u64],
    bound: u128,
    talk: &mut Talk<'_, S, K>,
) -> Result<(), Stop>
    ensures puts { PutsPiece (state_of talk.old).held (state_of talk.new).held
        ((state_of talk.old).out ++ (flat_map ended (map beta_line (enumerate_from 0 betas.now)) ++ ended (bound_line bound)))
        (state_of talk.new).out result }
    ensures rest { talk.new.source ≡ talk.old.source }
    ensures causes { HasCauses (state_of talk.old) (state_of talk.new) result }
    ensures same { place_of talk.new ≡ place_of talk.old }
{
    match put_lines(&BetaLines { betas }, talk) {
        Ok(()) => match push_bound_line(talk.out, bound) {
            Ok(()) => Ok(()),
            Err(_) => Err(Stop::OutOfMemory),
        },
        Err(stop) => Err(stop),
    }
}

/// Puts the lines of a certificate in pieces.
fn put_cert<S: Source, K: Sink>(cert: &Cert, talk: &mut Talk<'_, S, K>) -> Result<(), Stop>
    ensures puts { PutsPiece (state_of talk.old).held (state_of talk.new).held
        ((state_of talk.old).out ++ cert_document cert.now) (state_of talk.new).out result }
    ensures rest { talk.new.source ≡ talk.old.source }
    ensures causes { HasCauses (state_of talk.old) (state_of talk.new) result }
    ensures same { place_of talk.new ≡ place_of talk.old }
{
    match push_cert_front(talk.out, cert) {
        Ok(()) => put_betas(cert.betas.as_slice(), cert.bound, talk),
        Err(_) => Err(Stop::OutOfMemory),
    }
}

/// Puts the lines of a record and after them those of its certificate.
fn put_both<S: Source, K: Sink>(closed: &ClosedDay, talk: &mut Talk<'_, S, K>) -> Result<(), Stop>
    ensures puts { PutsPiece (state_of talk.old).held (state_of talk.new).held
        ((state_of talk.old).out ++ (record_document closed.now.record ++ cert_document closed.now.cert)) (state_of talk.new).out result }
    ensures rest { talk.new.source ≡ talk.old.source }
    ensures causes { HasCauses (state_of talk.old) (state_of talk.new) result }
    ensures same { place_of talk.new ≡ place_of talk.old }
{
    match put_record(&closed.record, talk) {
        Ok(()) => put_cert(&closed.cert, talk),
        Err(stop) => Err(stop),
    }
}

/// Puts all of a closed day's document, where nothing else is to be put.
fn put_document<S: Source, K: Sink>(
    closed: &ClosedDay,
    talk: &mut Talk<'_, S, K>,
) -> Result<(), Stop>
    requires unwritten { (state_of talk.old).out ≡ [] }
    ensures puts { PutsBytes (K.held talk.old.sink.now) (K.held talk.new.sink.now)
        (record_document closed.now.record ++ cert_document closed.now.cert) result }
    ensures rest { talk.new.source ≡ talk.old.source }
    ensures causes { HasCauses (state_of talk.old) (state_of talk.new) result }
    ensures same { place_of talk.new ≡ place_of talk.old }
{
    match put_both(closed, talk) {
        Ok(()) => talk.put_out(),
        Err(stop) => Err(stop),
    }
}

/// Closes the day of a history, and puts its document.
fn put_closed_day<S: Source, K: Sink>(
    alloc: Global,
    roster: &Roster,
    entries: &[Entry],
    talk: &mut Talk<'_, S, K>,
) -> Result<(), Stop>
    requires unwritten { (state_of talk.old).out ≡ [] }
    requires day { IsDay (desk_terms roster.now).day entries.now }
    ensures printed { Printed IsClosedDay roster.entry.now entries.now (K.held talk.old.sink.now) (K.held talk.new.sink.now) result }
    ensures rest { talk.new.source ≡ talk.old.source }
    ensures causes { HasCauses (state_of talk.old) (state_of talk.new) result }
    ensures same { place_of talk.new ≡ place_of talk.old }
{
    match close_day(alloc, roster, entries) {
        Ok(closed) => {
            let put = put_document(&closed, talk);
            // The program ends after it: as that of the desk that is left, this memory isn't freed piece by piece.
            forget(closed);
            put
        }
        Err(_) => Err(Stop::OutOfMemory),
    }
}

/// What is printed of a history that is closed.
#[derive(Drop)]
struct ClosedDays;

impl Print for ClosedDays {
    ghost use Rattle.std.specs.Prelude.{◌≡◌};
    ghost use Rattle.command_close.specs.ClosedDays.{IsClosedDay};

    ghost prints = { IsClosedDay };

    fn print<S: Source, K: Sink>(
        &self,
        alloc: Global,
        roster: &Roster,
        entries: &[Entry],
        talk: &mut Talk<'_, S, K>,
    ) -> Result<(), Stop> {
        put_closed_day(alloc, roster, entries, talk)
    }
}

/// Prints the document of the day that a journal keeps: the record of its history, and after it the certificate whose bound
/// no assignment of the day's impressions passes. A checker accepts that certificate.
///
/// The first line of the source is the roster's; what comes after it is read to its end and nothing depends on it. Then the
/// roster's day is opened on the disk, and the document is put into the sink. No entry is added: the disk represents the
/// same history afterwards.
///
/// `Done`: the sink took the whole document. `Refused`: the first line isn't a roster's, or the input passes `INPUT_LIMIT`
/// bytes, of which one more is taken; the sink took the answer that says why, and the disk is as it was. `DiskFault`: the
/// disk failed while the day was opened, and the sink took nothing. `NoHistory`: the disk's file isn't a journal of the
/// roster's day, and the sink took the answer that says why. `Err`: the source or the sink failed, whose count rose then,
/// or memory was refused; the sink took a prefix of the output.
pub fn close_journal<S: Source, K: Sink, D: Disk>(
    alloc: Global,
    source: &mut S,
    sink: &mut K,
    disk: &mut D,
) -> Result<Outcome, Stop>
    ensures runs { RunsHistory S.Source K.Sink D.Disk IsClosedDay source.old source.new sink.old sink.new disk.old disk.new result }
    ensures lasts { D.lasts disk.old disk.new }
    // Each history has one document.
    ensures one_document { HasOneDocument }
{
    run_history(alloc, &ClosedDays, source, sink, disk)
}
