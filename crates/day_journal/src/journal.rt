//! The open journal.
ghost use Rattle.std.specs.Prelude.{◌≡◌, ◌⊎◌, ◌<◌, ◌≤◌, ◌+◌, ◌^◌, ◌++◌, [], ◌∷◌, List, ℕ, length, min, false, All, Err, OnOk, OnErr};
ghost use Rattle.day_journal.specs.Disks.{Each, LeavesOnly};
ghost use Rattle.adx_io.specs.Streams.{HasCause, last_count};
ghost use Rattle.adx_io.specs.Frames.{body, record_of};
ghost use Rattle.day_journal.specs.Faults.{EndsAppend};
ghost use Rattle.day_journal.specs.Places.{IsFormat, IsPayload, opened};
ghost use Rattle.day_journal.specs.Tails.{HasShutTail, JournalState, Keeps, WithOrWithout, WithAtMostOne, size_after, size_of};
ghost use Rattle.day_journal.specs.declared.fault.AppendFault.{AppendFault};

use crate::disk::Disk;
use crate::fault::AppendFault;
use crate::steps;
use adx_io::{Failed, Frame};
use std::marker::Model;

/// The greatest size of a journal with what is held for later records.
const GREATEST_SIZE: u128 = 1 << 32;

/// An open journal; it owns no disk.
#[derive(Debug, Drop)]
pub struct Journal {
    format: u8,
    gate: u64,
    in_doubt: bool,
}

impl Model for Journal {
    ghost use Rattle.day_journal.specs.Tails.{JournalState};

    ghost Value = { JournalState };

    ghost view = { λ j. record { format = j.format; gate = j.gate; in_doubt = j.in_doubt } };
}

impl Journal {
    /// A journal of a format whose closed gate is at this place, with no tail in doubt.
    pub(crate) fn at_gate(format: u8, gate: u64) -> Journal
        ensures { result ≡ record { format = format; gate = gate; in_doubt = false } }
    {
        Journal {
            format,
            gate,
            in_doubt: false,
        }
    }

    /// The format of its entries, 1 or 2.
    pub fn format(&self) -> u8
        ensures { result ≡ self.now.format }
    {
        self.format
    }

    /// Closes the gate of a tail that is in doubt; does nothing where none is. The disk is the one that
    /// the journal was opened on, as this journal's calls left it.
    pub fn settle<D: Disk>(&mut self, disk: &mut D) -> Result<(), Failed>
        ensures kept { (payloads : List (List ℕ)) (tail : List ℕ) → Keeps (D.may_leave disk.old) self.old payloads tail
            → Keeps (D.may_leave disk.new) self.new payloads tail
            × LeavesOnly D.moment D.left_since disk.old disk.new (WithOrWithout self.old.format payloads tail) }
        ensures settled { OnOk result (self.new.in_doubt ≡ false) }
        ensures place { self.new.gate ≡ self.old.gate }
        ensures format { self.new.format ≡ self.old.format }
        ensures lasts { D.lasts disk.old disk.new }
        ensures cause { HasCause (D.faults disk.old) (D.faults disk.new) result }
    {
        if !self.in_doubt {
            return Ok(());
        }
        steps::set_gate(disk, self.gate, 0)?;
        self.in_doubt = false;
        Ok(())
    }

    /// Opens the gate of the record that was staged after it. After a fault the record is the tail in
    /// doubt.
    fn open_gate<D: Disk>(&mut self, disk: &mut D, len: u64) -> Result<(), Failed>
        requires { self.old.gate + len < 2 ^ 64 }
        ensures kept { (payloads : List (List ℕ)) (payload : List ℕ) → IsFormat self.old.format
            → self.old.gate ≡ length (opened self.old.format payloads) → All IsPayload payloads
            → IsPayload payload → len ≡ length payload + 5
            → Each (D.may_leave disk.old) (HasShutTail (opened self.old.format payloads) (body payload))
            → LeavesOnly D.moment D.left_since disk.old disk.new (WithOrWithout self.old.format payloads payload)
            × OnOk result ((tail : List ℕ) → Keeps (D.may_leave disk.new) self.new (payloads ++ payload ∷ []) tail)
            × OnErr result (Keeps (D.may_leave disk.new) self.new payloads payload) }
        ensures grown { OnOk result (self.new.gate ≡ self.old.gate + len) }
        ensures place { OnErr result (self.new.gate ≡ self.old.gate) }
        ensures format { self.new.format ≡ self.old.format }
        ensures lasts { D.lasts disk.old disk.new }
        ensures cause { HasCause (D.faults disk.old) (D.faults disk.new) result }
    {
        self.in_doubt = true;
        steps::set_gate(disk, self.gate, 1)?;
        self.in_doubt = false;
        self.gate += len;
        Ok(())
    }

    /// Settles, writes a record after the gate, and opens the gate.
    fn put<D: Disk>(&mut self, disk: &mut D, record_bytes: &[u8]) -> Result<(), Failed>
        requires { self.old.gate + 1 + length record_bytes.now < 2 ^ 64 }
        ensures kept { (payloads : List (List ℕ)) (tail payload : List ℕ) → IsPayload payload → record_bytes.now ≡ record_of payload
            → Keeps (D.may_leave disk.old) self.old payloads tail
            → LeavesOnly D.moment D.left_since disk.old disk.new (WithAtMostOne self.old.format payloads tail payload)
            × OnOk result ((any : List ℕ) → Keeps (D.may_leave disk.new) self.new (payloads ++ payload ∷ []) any)
            × OnErr result (Keeps (D.may_leave disk.new) self.new payloads tail ⊎ Keeps (D.may_leave disk.new) self.new payloads payload) }
        ensures grown { OnOk result (self.new.gate ≡ self.old.gate + length record_bytes.now) }
        ensures place { OnErr result (self.new.gate ≡ self.old.gate) }
        ensures format { self.new.format ≡ self.old.format }
        ensures lasts { D.lasts disk.old disk.new }
        ensures cause { HasCause (D.faults disk.old) (D.faults disk.new) result }
    {
        self.settle(disk)?;
        steps::stage(disk, self.gate, record_bytes)?;
        self.open_gate(disk, record_bytes.len() as u64)?;
        Ok(())
    }

    /// Adds a payload of 1 to 67,108,864 bytes; `held` is the number of bytes that are held for later
    /// records. The disk is the one that the journal was opened on, as this journal's calls left it.
    ///
    /// After Ok each crash leaves a file with the payload. After a disk fault the payload may be there
    /// or not; it is then the tail that the next call settles first.
    pub fn append<D: Disk>(
        &mut self,
        disk: &mut D,
        frame: &Frame,
        held: u64,
    ) -> Result<(), AppendFault>
        requires { 0 < length frame.now.payload }

        // Whatever payloads and tail the journal kept before: a crash at any moment of the call leaves
        // those payloads, or them and one more, the tail or the new one.
        ensures any_moment { (payloads : List (List ℕ)) (tail : List ℕ) → Keeps (D.may_leave disk.old) self.old payloads tail
            → LeavesOnly D.moment D.left_since disk.old disk.new (WithAtMostOne self.old.format payloads tail frame.now.payload) }
        ensures acknowledged { OnOk result ((payloads : List (List ℕ)) (tail any : List ℕ)
            → Keeps (D.may_leave disk.old) self.old payloads tail
            → Keeps (D.may_leave disk.new) self.new (payloads ++ frame.now.payload ∷ []) any) }
        ensures doubted { OnErr result ((payloads : List (List ℕ)) (tail : List ℕ) → Keeps (D.may_leave disk.old) self.old payloads tail
            → Keeps (D.may_leave disk.new) self.new payloads tail ⊎ Keeps (D.may_leave disk.new) self.new payloads frame.now.payload) }

        ensures ends { EndsAppend (D.faults disk.old) (D.faults disk.new) (size_after self.old frame.now.payload held) result }
        ensures refused { (size : ℕ) → result ≡ Err (AppendFault.Full size) → (self.new ≡ self.old) × (disk.new ≡ disk.old) }
        ensures grown { OnOk result (self.new.gate ≡ self.old.gate + (length frame.now.payload + 5)) }
        ensures place { OnErr result (self.new.gate ≡ self.old.gate) }
        ensures format { self.new.format ≡ self.old.format }
        ensures lasts { D.lasts disk.old disk.new }
    {
        let record_bytes = frame.record_bytes();
        let size = size_with(self.gate, record_bytes.len(), held);
        if size > GREATEST_SIZE {
            return Err(AppendFault::Full {
                size: u64::try_from(size).unwrap_or(u64::MAX),
            });
        }
        match self.put(disk, record_bytes) {
            Ok(()) => Ok(()),
            Err(_) => Err(AppendFault::DiskFault),
        }
    }

    /// How many bytes the journal has: its head, its payloads at open places, and the closed gate.
    pub fn size(&self) -> u64
        ensures { result ≡ min (size_of self.now) last_count }
    {
        self.gate.saturating_add(1)
    }
}

/// The size with one record more and what is held.
fn size_with(gate: u64, record_len: usize, held: u64) -> u128
    ensures { result ≡ gate + 1 + record_len + held }
{
    u128::from(gate) + 1 + record_len as u128 + u128::from(held)
}
