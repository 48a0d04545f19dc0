//! Whole numbers of entries, as a format of a journal writes them.
ghost use Rattle.std.specs.Prelude.{◌≡◌, ◌≤◌, ◌+◌, length, Ok, Err, IsOk, OnOk, MatchOption};
ghost use Rattle.day_entries.specs.declared.unread.Unread.{Unread};
ghost use Rattle.formats.specs.Formats.{Adds};
ghost use Rattle.day_entries.specs.Numbers.{long, numbers_of, short, small, wide};
ghost use Rattle.day_entries.specs.Reading.{Gives};
ghost use Rattle.day_entries.specs.Pieces.{with_pieces};
ghost use Rattle.day_entries.specs.declared.gathering.TheConstants.{GATHERED};

use crate::gathering::{Pieces, make_room};
use crate::unread::Unread;
use adx_io::Frame;
use adx_units::OutOfMemory;
use formats::{byte, fixed_u16, fixed_u32, fixed_u64, grouped, groups, push_groups};

/// How whole numbers are written.
#[derive(Clone, Copy, Debug, PartialEq, Eq)]
pub(crate) enum Numbers {
    /// In as many bytes as their field has, least first.
    Fixed,
    /// In groups of 7 bits, least first.
    Grouped,
}

impl Numbers {
    /// The numbers of a journal's format, 1 or 2.
    pub(crate) fn of(format: u8) -> Numbers
        ensures { result ≡ numbers_of format }
    {
        if format == 2 {
            Numbers::Grouped
        } else {
            Numbers::Fixed
        }
    }

    /// The fewest bytes of a name, of one byte after its length.
    pub(crate) fn least_name(self) -> usize
        ensures { 1 ≤ result }
    {
        match self {
            Numbers::Fixed => 5,
            Numbers::Grouped => 2,
        }
    }

    /// The fewest bytes of a bid's texts: its place and the lengths of seven empty texts.
    pub(crate) fn least_kept(self) -> usize
        ensures { 1 ≤ result }
    {
        match self {
            Numbers::Fixed => 32,
            Numbers::Grouped => 8,
        }
    }

    /// The fewest bytes of an offer.
    pub(crate) fn least_offer(self) -> usize
        ensures { 1 ≤ result }
    {
        match self {
            Numbers::Fixed => 19,
            Numbers::Grouped => 5,
        }
    }

    /// A number below 2^8.
    pub(crate) fn small(self, bytes: &[u8]) -> Result<(u8, &[u8]), Unread>
        ensures { Gives (λ x. (x.0, x.1.now)) result ((small self).reads bytes.now) }
    {
        match self {
            Numbers::Fixed => found(byte(bytes)),
            Numbers::Grouped => {
                let (number, rest) = found(grouped(bytes))?;
                match u8::try_from(number) {
                    Ok(number) => Ok((number, rest)),
                    Err(_) => Err(Unread::NoEntry),
                }
            }
        }
    }

    /// A number below 2^16.
    pub(crate) fn short(self, bytes: &[u8]) -> Result<(u16, &[u8]), Unread>
        ensures { Gives (λ x. (x.0, x.1.now)) result ((short self).reads bytes.now) }
    {
        match self {
            Numbers::Fixed => found(fixed_u16(bytes)),
            Numbers::Grouped => {
                let (number, rest) = found(grouped(bytes))?;
                match u16::try_from(number) {
                    Ok(number) => Ok((number, rest)),
                    Err(_) => Err(Unread::NoEntry),
                }
            }
        }
    }

    /// A number below 2^32.
    pub(crate) fn long(self, bytes: &[u8]) -> Result<(u32, &[u8]), Unread>
        ensures { Gives (λ x. (x.0, x.1.now)) result ((long self).reads bytes.now) }
    {
        match self {
            Numbers::Fixed => found(fixed_u32(bytes)),
            Numbers::Grouped => {
                let (number, rest) = found(grouped(bytes))?;
                match u32::try_from(number) {
                    Ok(number) => Ok((number, rest)),
                    Err(_) => Err(Unread::NoEntry),
                }
            }
        }
    }

    /// A number below 2^64.
    pub(crate) fn wide(self, bytes: &[u8]) -> Result<(u64, &[u8]), Unread>
        ensures { Gives (λ x. (x.0, x.1.now)) result ((wide self).reads bytes.now) }
    {
        match self {
            Numbers::Fixed => found(fixed_u64(bytes)),
            Numbers::Grouped => found(grouped(bytes)),
        }
    }
}

impl Numbers {
    /// Adds a number below 2^32.
    pub(crate) fn push_long(self, number: u32, out: &mut Frame) -> Result<(), OutOfMemory>
        ensures ok { OnOk result (Adds (long self) out.old.payload out.new.payload number) }
        ensures succeeds { 10 ≤ out.old.spare → IsOk result }
        ensures spare { out.old.spare ≤ out.new.spare + length ((long self).write number) }
        ensures marked { out.new.marked ≡ out.old.marked }
    {
        match self {
            Numbers::Fixed => out.push(&number.to_le_bytes()),
            Numbers::Grouped => {
                // Most numbers are one group, a piece of known length.
                if number < 128 {
                    return out.push(&[number as u8]);
                }
                out.push(groups(u64::from(number)).as_slice())
            }
        }
    }

    /// Adds a number below 2^64.
    pub(crate) fn push_wide(self, number: u64, out: &mut Frame) -> Result<(), OutOfMemory>
        ensures ok { OnOk result (Adds (wide self) out.old.payload out.new.payload number) }
        ensures succeeds { 10 ≤ out.old.spare → IsOk result }
        ensures spare { out.old.spare ≤ out.new.spare + length ((wide self).write number) }
        ensures marked { out.new.marked ≡ out.old.marked }
    {
        match self {
            Numbers::Fixed => out.push(&number.to_le_bytes()),
            Numbers::Grouped => out.push(groups(number).as_slice()),
        }
    }
}

impl Numbers {
    /// Adds a number below 2^8 to the pieces, which have room for it.
    pub(crate) fn put_small(self, number: u8, out: &mut Pieces)
        requires { length out.old.items + 10 ≤ GATHERED }
        ensures added { Adds (small self) out.old.items out.new.items number }
        ensures few { length out.new.items ≤ length out.old.items + 2 }
    {
        match self {
            Numbers::Fixed => out.push(number),
            Numbers::Grouped => push_groups(out, u64::from(number)),
        }
    }

    /// Adds a number below 2^16 to the pieces, which have room for it.
    pub(crate) fn put_short(self, number: u16, out: &mut Pieces)
        requires { length out.old.items + 10 ≤ GATHERED }
        ensures { Adds (short self) out.old.items out.new.items number }
    {
        match self {
            Numbers::Fixed => {
                let [a, b] = number.to_le_bytes();
                out.push(a);
                out.push(b);
            }
            Numbers::Grouped => push_groups(out, u64::from(number)),
        }
    }

    /// Adds a number below 2^32 to the pieces, which have room for it.
    pub(crate) fn put_long(self, number: u32, out: &mut Pieces)
        requires { length out.old.items + 10 ≤ GATHERED }
        ensures added { Adds (long self) out.old.items out.new.items number }
        ensures few { length out.new.items ≤ length out.old.items + 5 }
    {
        match self {
            Numbers::Fixed => {
                let [a, b, c, d] = number.to_le_bytes();
                out.push(a);
                out.push(b);
                out.push(c);
                out.push(d);
            }
            Numbers::Grouped => push_groups(out, u64::from(number)),
        }
    }

    /// Adds a number below 2^64 to the pieces, which have room for it.
    pub(crate) fn put_wide(self, number: u64, out: &mut Pieces)
        requires { length out.old.items + 10 ≤ GATHERED }
        ensures added { Adds (wide self) out.old.items out.new.items number }
        ensures few { length out.new.items ≤ length out.old.items + 10 }
    {
        match self {
            Numbers::Fixed => {
                let added = out.try_extend_from_slice(&number.to_le_bytes());
                prove!(added.is_ok());
            }
            Numbers::Grouped => push_groups(out, number),
        }
    }
}

impl Numbers {
    /// Adds a number below 2^8 after the pieces.
    pub(crate) fn gather_small(
        self,
        number: u8,
        pieces: &mut Pieces,
        out: &mut Frame,
    ) -> Result<(), OutOfMemory>
        ensures ok { OnOk result (Adds (small self) (with_pieces pieces.old.items out.old) (with_pieces pieces.new.items out.new) number) }
        ensures marked { out.new.marked ≡ out.old.marked }
    {
        make_room(pieces, out)?;
        self.put_small(number, pieces);
        Ok(())
    }

    /// Adds a number below 2^32 after the pieces.
    pub(crate) fn gather_long(
        self,
        number: u32,
        pieces: &mut Pieces,
        out: &mut Frame,
    ) -> Result<(), OutOfMemory>
        ensures ok { OnOk result (Adds (long self) (with_pieces pieces.old.items out.old) (with_pieces pieces.new.items out.new) number) }
        ensures marked { out.new.marked ≡ out.old.marked }
    {
        make_room(pieces, out)?;
        self.put_long(number, pieces);
        Ok(())
    }

    /// Adds a number below 2^64 after the pieces.
    pub(crate) fn gather_wide(
        self,
        number: u64,
        pieces: &mut Pieces,
        out: &mut Frame,
    ) -> Result<(), OutOfMemory>
        ensures ok { OnOk result (Adds (wide self) (with_pieces pieces.old.items out.old) (with_pieces pieces.new.items out.new) number) }
        ensures marked { out.new.marked ≡ out.old.marked }
    {
        make_room(pieces, out)?;
        self.put_wide(number, pieces);
        Ok(())
    }
}

/// What was found, or that nothing was.
fn found<T>(part: Option<T>) -> Result<T, Unread>
    ensures { MatchOption part (result ≡ Err Unread.NoEntry) (λ x. result ≡ Ok x) }
{
    match part {
        Some(part) => Ok(part),
        None => Err(Unread::NoEntry),
    }
}
