//! A file that outlives a crash.
ghost use Rattle.std.specs.Prelude.{◌≡◌, ◌≤◌, ℕ, List, length, Option, Some, is_some, IfOk, IfSome, OnOk};
ghost use Rattle.adx_io.specs.Streams.{HasCause};
ghost use Rattle.day_journal.specs.Disks.{AsRead, Elapses, Follows, Shows, Torn, Within, reads_written};

use adx_io::Failed;

/// One file whose bytes outlive a crash, once they are synced.
pub trait Disk {
    ghost use Rattle.std.specs.Prelude.{ℕ, List, Option, Some, ◌≡◌, ◌≤◌};

    /// How often the disk has failed; it never falls.
    ghost faults: { Self → ℕ };

    /// What a read gives, where the disk tells it.
    ghost reads: { Self → Option (List ℕ) };

    /// The images: what a crash at this moment may leave, as far as the disk tells.
    ghost may_leave: { Self → List ℕ → Type 0 };

    /// The moment, as a number that never falls.
    ghost moment: { Self → ℕ };

    /// What a crash at some moment from that one on might have left, during a call or between two.
    ghost left_since: { Self → ℕ → List ℕ → Type 0 };

    /// The second is the first after calls: where the disk is lent, it is still the same one. A caller
    /// that lends its disk to a struct learns by it what became of the disk.
    ghost lasts: { Self → Self → Type 0 };

    /// The number of bytes.
    fn size(&mut self) -> Result<u64, Failed>
        ensures count { IfOk result (λ n. IfSome (reads self.old) (λ file. n ≡ length file)) }
        ensures same { reads self.new ≡ reads self.old }
        ensures crash { Within (may_leave self.old) (may_leave self.new) }
        ensures time { Elapses (moment self.old) (moment self.new) (left_since self.old) (left_since self.new) (may_leave self.new) }
        ensures lasts { lasts self.old self.new }
        ensures cause { HasCause (faults self.old) (faults self.new) result };

    /// Fills `out` with the bytes from `at` on, and says how many they are: fewer than `out` has room
    /// for only at the end of the file.
    fn read(&mut self, at: u64, out: &mut [u8]) -> Result<usize, Failed>
        ensures count { IfOk result (λ n. n ≤ length out.old) }
        ensures shown { IfOk result (λ n. IfSome (reads self.old) (λ file. Shows file at n out.new)) }
        ensures same { reads self.new ≡ reads self.old }
        ensures crash { Within (may_leave self.old) (may_leave self.new) }
        ensures time { Elapses (moment self.old) (moment self.new) (left_since self.old) (left_since self.new) (may_leave self.new) }
        ensures lasts { lasts self.old self.new }
        ensures cause { HasCause (faults self.old) (faults self.new) result };

    /// Writes over what is there, and past the end. Until a sync succeeds a crash may leave any bytes in
    /// the range. After a fault a read gives one of the images.
    fn write_at(&mut self, at: u64, piece: &[u8]) -> Result<(), Failed>
        ensures written { OnOk result (reads self.new ≡ reads_written at piece.now (reads self.old)) }
        ensures told { is_some (reads self.new) ≡ is_some (reads self.old) }
        ensures crash { Follows (Torn at (length piece.now)) (may_leave self.old) (may_leave self.new) }
        ensures time { Elapses (moment self.old) (moment self.new) (left_since self.old) (left_since self.new) (may_leave self.new) }
        ensures lasts { lasts self.old self.new }
        ensures cause { HasCause (faults self.old) (faults self.new) result };

    /// Makes the file durable: a crash then leaves what a read gives. After a fault a read gives one of
    /// the images.
    fn sync(&mut self) -> Result<(), Failed>
        ensures durable { OnOk result (AsRead (reads self.new) (may_leave self.new)) }
        ensures same { OnOk result (reads self.new ≡ reads self.old) }
        ensures told { is_some (reads self.new) ≡ is_some (reads self.old) }
        ensures crash { Within (may_leave self.old) (may_leave self.new) }
        ensures time { Elapses (moment self.old) (moment self.new) (left_since self.old) (left_since self.new) (may_leave self.new) }
        ensures lasts { lasts self.old self.new }
        ensures cause { HasCause (faults self.old) (faults self.new) result };

    /// A disk is itself.
    ghost lasts_same: { (disk : Self) → lasts disk disk };

    /// Calls after calls are calls.
    ghost lasts_on: { (a b c : Self) → lasts a b → lasts b c → lasts a c };

    /// What a read gives is one of the images.
    ghost read_is_left: { (disk : Self) (file : List ℕ) → reads disk ≡ Some file → may_leave disk file };

    /// This moment is one of those since an earlier one.
    ghost counts_now: { (disk : Self) (t : ℕ) (c : List ℕ) → t ≤ moment disk → may_leave disk c → left_since disk t c };

    /// Since this moment there is no other.
    ghost only_now: { (disk : Self) (c : List ℕ) → left_since disk (moment disk) c → may_leave disk c };
}

impl<D: Disk> Disk for &mut D {
    ghost use Rattle.std.specs.Prelude.{◌≡◌, refl};
    ghost use Rattle.std.proofs.Common.{◌∙◌};

    ghost faults = { λ d. D.faults d.now };

    ghost reads = { λ d. D.reads d.now };

    ghost may_leave = { λ d. D.may_leave d.now };

    ghost moment = { λ d. D.moment d.now };

    ghost left_since = { λ d. D.left_since d.now };

    ghost lasts = { λ a b. (a.ghost_name ≡ b.ghost_name) × D.lasts a.now b.now };

    ghost lasts_same = { λ d. (refl, D.lasts_same d.now) };

    ghost lasts_on = { λ a b c first second. (first.0 ∙ second.0, D.lasts_on a.now b.now c.now first.1 second.1) };

    ghost read_is_left = { λ d. D.read_is_left d.now };

    ghost counts_now = { λ d. D.counts_now d.now };

    ghost only_now = { λ d. D.only_now d.now };

    fn size(&mut self) -> Result<u64, Failed> {
        (**self).size()
    }

    fn read(&mut self, at: u64, out: &mut [u8]) -> Result<usize, Failed> {
        (**self).read(at, out)
    }

    fn write_at(&mut self, at: u64, piece: &[u8]) -> Result<(), Failed> {
        (**self).write_at(at, piece)
    }

    fn sync(&mut self) -> Result<(), Failed> {
        (**self).sync()
    }
}
