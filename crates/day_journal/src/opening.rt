//! How a journal is opened: made anew where there is none, and else read payload by payload.
ghost use Rattle.day_journal.specs.Disks.{AsRead, Each, LeavesOnly};
ghost use Rattle.adx_io.specs.Frames.{longest_payload};
ghost use Rattle.adx_io.specs.Streams.{HasCause, last_count};
ghost use Rattle.day_journal.specs.Faults.{EndsOpening, Refuses};
ghost use Rattle.day_journal.specs.Openings.{IsPlace, OnlyReads, OpeningState, StandsBehind};
ghost use Rattle.day_journal.specs.Places.{HasBadLength, IsClosed, StandsFor, opened};
ghost use Rattle.day_journal.specs.Starts.{BeginsJournal, IsStart, KeptOrMade, LeavesNoMore, Looked, StandsAsRead};
ghost use Rattle.day_journal.specs.Tails.{Keeps};
ghost use Rattle.day_journal.specs.declared.fault.OpeningFault.{OpeningFault};
ghost use Rattle.day_journal.specs.declared.place.Place.{Place};
ghost use Rattle.std.specs.Prelude.{◌≡◌, ◌≤◌, ◌<◌, ◌+◌, ◌^◌, ◌++◌, [], ◌∷◌, List, ℕ, Some, None, Ok, Err, true, false, All, length, take, drop, IfOk, IfErr, OnOk, OnErr, MatchBool, MatchOption};

use crate::disk::Disk;
use crate::fault::OpeningFault;
use crate::journal::Journal;
use crate::making::{make_cleared, make_uncleared};
use crate::place::{Place, place_in};
use crate::start::{NEW_FORMAT, Start, start_of};
use crate::window::{Window, read_behind};
use adx_io::Failed;
use adx_units::OutOfMemory;
use std::alloc::Global;
use std::marker::Model;

/// A new journal.
const NEW: Found = Found {
    format: NEW_FORMAT,
    size: 10,
};

/// A journal while it is read; it owns no disk.
#[derive(Debug, Drop)]
pub struct Opening {
    format: u8,
    window: Window,
    size: u64,
    closed: bool,
}

impl Model for Opening {
    ghost use Rattle.day_journal.specs.Openings.{OpeningState};

    ghost Value = { OpeningState };

    ghost view = { λ o. record { format = o.format; window = o.window; size = o.size; closed = o.closed } };
}

/// A journal that is to be read: its format and its length.
#[derive(Clone, Copy, Debug, PartialEq, Eq)]
struct Found {
    format: u8,
    size: u64,
}

/// What is known of a file when it is opened.
#[derive(Debug, Drop)]
struct Look {
    size: u64,
    start: Start,
}

impl Journal {
    /// Syncs the disk, and begins to read its journal; of a file that has none yet it makes a new one
    /// first. The disk is then lent to each further call, as these calls left it.
    pub fn open<D: Disk>(alloc: Global, disk: &mut D) -> Result<Opening, OpeningFault>
        ensures behind { IfOk result (λ opening. (file : List ℕ) → D.reads disk.new ≡ Some file → StandsBehind file opening []) }
        ensures durable { OnOk result (AsRead (D.reads disk.new) (D.may_leave disk.new)) }
        ensures reading { OnOk result ((file : List ℕ) → D.reads disk.old ≡ Some file → KeptOrMade file (D.reads disk.new)) }
        ensures refused { IfErr result (λ e. (file : List ℕ) → D.reads disk.old ≡ Some file → Refuses file e) }
        ensures untouched { (at : ℕ) → result ≡ Err (OpeningFault.NotAJournal at) → D.reads disk.new ≡ D.reads disk.old }
        ensures no_place { (at : ℕ) → result ≡ Err (OpeningFault.BadLength at) → ⊥ }
        ensures start { IfOk result (λ opening. opening.window.at ≡ length (opened opening.format [])) }

        // A crash at any moment of the call leaves what a crash before it might have left, the file that was read, or, where
        // that had no payload, one that has none.
        ensures any_moment { LeavesOnly D.moment D.left_since disk.old disk.new (StandsAsRead (D.may_leave disk.old) (D.reads disk.old)) }

        ensures ends { EndsOpening (D.faults disk.old) (D.faults disk.new) result }
        ensures lasts { D.lasts disk.old disk.new }
    {
        let window = Window::new(alloc, 9)?;
        let look = look_at(disk)?;
        let found = finish(disk, look)?;
        Ok(begun(found, window))
    }
}

/// Makes a new journal of a file that is unfinished, and says which format and length the journal has.
fn finish<D: Disk>(disk: &mut D, look: Look) -> Result<Found, OpeningFault>
    ensures kept { Looked look.size look.start (D.reads disk.old) (D.may_leave disk.old)
        → LeavesOnly D.moment D.left_since disk.old disk.new (StandsAsRead (D.may_leave disk.old) (D.reads disk.old)) }
    ensures behind { IfOk result (λ found. Looked look.size look.start (D.reads disk.old) (D.may_leave disk.old)
        → (file : List ℕ) → D.reads disk.new ≡ Some file → BeginsJournal found.format found.size file) }
    ensures durable { OnOk result (Looked look.size look.start (D.reads disk.old) (D.may_leave disk.old)
        → AsRead (D.reads disk.new) (D.may_leave disk.new)) }
    ensures reading { OnOk result (Looked look.size look.start (D.reads disk.old) (D.may_leave disk.old)
        → (file : List ℕ) → D.reads disk.old ≡ Some file → KeptOrMade file (D.reads disk.new)) }
    ensures refused { IfErr result (λ e. Looked look.size look.start (D.reads disk.old) (D.may_leave disk.old)
        → (file : List ℕ) → D.reads disk.old ≡ Some file → Refuses file e) }
    ensures untouched { (at : ℕ) → result ≡ Err (OpeningFault.NotAJournal at) → D.reads disk.new ≡ D.reads disk.old }
    ensures no_place { (at : ℕ) → result ≡ Err (OpeningFault.BadLength at) → ⊥ }
    ensures ends { EndsOpening (D.faults disk.old) (D.faults disk.new) result }
    ensures lasts { D.lasts disk.old disk.new }
{
    match look.start {
        Start::Cleared => {
            make_cleared(disk)?;
            Ok(NEW)
        }
        Start::Uncleared => {
            make_uncleared(disk)?;
            Ok(NEW)
        }
        Start::Journal { format } => Ok(Found {
            format,
            size: look.size,
        }),
        Start::Other { at } => Err(OpeningFault::NotAJournal { at }),
    }
}

/// A reader at the front of a journal.
fn begun(found: Found, window: Window) -> Opening
    ensures value { result ≡ record { format = found.format; window = window; size = found.size; closed = false } }
    ensures fits { found.size < 2 ^ 64 }
{
    Opening {
        format: found.format,
        window,
        size: found.size,
        closed: false,
    }
}

/// Makes durable what a disk reads, and looks at its length and first bytes.
fn look_at<D: Disk>(disk: &mut D) -> Result<Look, Failed>
    ensures durable { OnOk result (AsRead (D.reads disk.new) (D.may_leave disk.new)) }
    ensures same { OnOk result (D.reads disk.new ≡ D.reads disk.old) }
    ensures found { IfOk result (λ look. (file : List ℕ) → D.reads disk.new ≡ Some file
        → (look.size ≡ length file) × IsStart (take 11 file) look.start) }
    ensures no_more { LeavesNoMore D.may_leave D.moment D.left_since disk.old disk.new }
    ensures lasts { D.lasts disk.old disk.new }
    ensures cause { HasCause (D.faults disk.old) (D.faults disk.new) result }
{
    disk.sync()?;
    let size = disk.size()?;
    let mut first = [0; 11];
    let count = disk.read(0, &mut first)?;
    let start = start_of(&first[..count]);
    Ok(Look { size, start })
}

impl Opening {
    /// The format of the entries that are read, 1 or 2.
    pub fn format(&self) -> u8
        ensures { result ≡ self.now.format }
    {
        self.format
    }

    /// The next payload; None exactly at the first gate that isn't 1.
    pub fn next<D: Disk>(
        &mut self,
        alloc: Global,
        disk: &mut D,
    ) -> Result<Option<Vec<u8>>, OpeningFault>
        ensures found { IfOk result (λ next. (file : List ℕ) (payloads : List (List ℕ)) → D.reads disk.old ≡ Some file
            → StandsBehind file self.old payloads
            → MatchOption next (StandsBehind file self.new payloads × IsClosed (opened self.old.format payloads) file)
            (λ payload. StandsBehind file self.new (payloads ++ payload.items ∷ []))) }
        ensures closed { result ≡ Ok None → self.new.closed ≡ true }
        ensures refused { IfErr result (λ e. (file : List ℕ) (payloads : List (List ℕ)) → D.reads disk.old ≡ Some file
            → StandsBehind file self.old payloads → Refuses file e) }
        ensures place { (at : ℕ) → result ≡ Err (OpeningFault.BadLength at) → at ≡ self.old.window.at }
        ensures moved { IfOk result (λ next. MatchOption next (self.new.window.at ≡ self.old.window.at)
            (λ payload. self.new.window.at ≤ self.old.window.at + (length payload.items + 5))) }
        ensures only_reads { OnlyReads D.reads D.may_leave D.moment D.left_since disk.old disk.new }
        ensures format { self.new.format ≡ self.old.format }
        ensures ends { EndsOpening (D.faults disk.old) (D.faults disk.new) result }
        ensures lasts { D.lasts disk.old disk.new }
    {
        let mut payload = Vec::new(alloc);
        let more = self.next_into(disk, &mut payload)?;
        Ok(if more { Some(payload) } else { None })
    }

    /// The next payload in place of what the vector had, and true; false exactly at the first gate that
    /// isn't 1. Each byte of the file is read once, in large pieces.
    pub fn next_into<D: Disk>(
        &mut self,
        disk: &mut D,
        payload: &mut Vec<u8>,
    ) -> Result<bool, OpeningFault>
        ensures found { IfOk result (λ more. (file : List ℕ) (payloads : List (List ℕ)) → D.reads disk.old ≡ Some file
            → StandsBehind file self.old payloads
            → MatchBool more (StandsBehind file self.new (payloads ++ payload.new.items ∷ []))
            (StandsBehind file self.new payloads × IsClosed (opened self.old.format payloads) file)) }
        ensures closed { result ≡ Ok false → self.new.closed ≡ true }
        ensures refused { IfErr result (λ e. (file : List ℕ) (payloads : List (List ℕ)) → D.reads disk.old ≡ Some file
            → StandsBehind file self.old payloads → Refuses file e) }
        ensures place { (at : ℕ) → result ≡ Err (OpeningFault.BadLength at) → at ≡ self.old.window.at }
        ensures moved { IfOk result (λ more. MatchBool more
            (self.new.window.at ≤ self.old.window.at + (length payload.new.items + 5)) (self.new.window.at ≡ self.old.window.at)) }
        ensures only_reads { OnlyReads D.reads D.may_leave D.moment D.left_since disk.old disk.new }
        ensures format { self.new.format ≡ self.old.format }
        ensures ends { EndsOpening (D.faults disk.old) (D.faults disk.new) result }
        ensures lasts { D.lasts disk.old disk.new }
    {
        payload.clear();
        self.closed = false;
        self.window.fill(disk)?;
        match place_in(self.window.bytes()) {
            Place::Open(count) => {
                self.take(disk, payload, count)?;
                Ok(true)
            }
            Place::Closed => {
                self.closed = true;
                Ok(false)
            }
            Place::Bad => Err(OpeningFault::BadLength {
                at: self.window.at(),
            }),
        }
    }

    /// Takes the payload of so many bytes of the open place at which the window begins.
    fn take<D: Disk>(
        &mut self,
        disk: &mut D,
        payload: &mut Vec<u8>,
        count: usize,
    ) -> Result<(), OpeningFault>
        requires empty { payload.old.items ≡ [] }
        requires open { 5 ≤ length self.old.window.bytes }
        requires some { 0 < count }
        requires fits { count ≤ longest_payload }
        requires closed { self.old.closed ≡ false }
        ensures found { OnOk result ((file : List ℕ) (payloads : List (List ℕ)) → D.reads disk.old ≡ Some file
            → StandsBehind file self.old payloads
            → IsPlace self.old.window.bytes (Place.Open count) → StandsBehind file self.new (payloads ++ payload.new.items ∷ [])) }
        ensures refused { IfErr result (λ e. (file : List ℕ) (payloads : List (List ℕ)) → D.reads disk.old ≡ Some file
            → StandsBehind file self.old payloads
            → IsPlace self.old.window.bytes (Place.Open count) → Refuses file e) }
        ensures place { (at : ℕ) → result ≡ Err (OpeningFault.BadLength at) → at ≡ self.old.window.at }
        ensures len { OnOk result (length payload.new.items ≡ count) }
        ensures moved { OnOk result (self.new.window.at ≤ self.old.window.at + (count + 5)) }
        ensures only_reads { OnlyReads D.reads D.may_leave D.moment D.left_since disk.old disk.new }
        ensures format { self.new.format ≡ self.old.format }
        ensures ends { EndsOpening (D.faults disk.old) (D.faults disk.new) result }
        ensures lasts { D.lasts disk.old disk.new }
    {
        if count + 5 <= self.window.bytes().len() {
            keep(payload, self.window.bytes(), count)?;
            self.window.pass(count + 5);
            return Ok(());
        }
        let at = self.window.at();
        let whole = count as u64 + 5;
        if self.size < at || self.size - at < whole {
            return Err(OpeningFault::BadLength { at });
        }
        let there = self.window.bytes().len() - 5;
        keep(payload, self.window.bytes(), there)?;
        lengthen(payload, count)?;
        let more = read_behind(disk, at.saturating_add(5), payload, there)?;
        if there + more < count {
            return Err(OpeningFault::BadLength { at });
        }
        self.window.pass_all(whole);
        Ok(())
    }

    /// The open journal after all its payloads; `next` gave None.
    ///
    /// Where the file is durable, as it is since the journal was opened, the journal keeps the payloads
    /// that were read, with no tail in doubt.
    pub fn done<D: Disk>(self, disk: &D) -> Journal
        requires { self.closed ≡ true }
        ensures kept { (file : List ℕ) (payloads : List (List ℕ)) (tail : List ℕ) → D.reads disk.now ≡ Some file
            → StandsBehind file self payloads
            → AsRead (D.reads disk.now) (D.may_leave disk.now) → Keeps (D.may_leave disk.now) result payloads tail }
        ensures gate { result ≡ record { format = self.format; gate = self.window.at; in_doubt = false } }
    {
        Journal::at_gate(self.format, self.window.at())
    }
}

/// Keeps the first bytes of a payload after a gate and a length.
fn keep(payload: &mut Vec<u8>, bytes: &[u8], count: usize) -> Result<(), OutOfMemory>
    requires { count + 5 ≤ length bytes.now }
    ensures { OnOk result (payload.new.items ≡ payload.old.items ++ take count (drop 5 bytes.now)) }
{
    payload.extend_from_slice(&bytes[5..5 + count])?;
    Ok(())
}

/// Makes a payload so long, with zeros.
fn lengthen(payload: &mut Vec<u8>, count: usize) -> Result<(), OutOfMemory>
    requires { length payload.old.items ≤ count }
    ensures len { OnOk result (length payload.new.items ≡ count) }
    ensures front { OnOk result (take (length payload.old.items) payload.new.items ≡ payload.old.items) }
{
    payload.resize(count, 0)?;
    Ok(())
}
