//! The rest of an input, read to its end.
ghost use Rattle.std.specs.Prelude.{◌≡◌, ◌≤◌, ◌<◌, ◌+◌, ◌-◌, length, take, drop, IfOk, OnOk, OnErr};
ghost use Rattle.adx_io.specs.Lines.{Fills};
ghost use Rattle.adx_io.specs.Rest.{AddsSome, IsFull, ReadsRest, Within};
ghost use Rattle.adx_io.specs.Streams.{HasCause, HasReadCause, WhereTold};
ghost use Rattle.adx_io.specs.declared.line_buffer.TheConstants.{CHUNK};

use crate::failed::Failed;
use crate::line_buffer::{CHUNK, probe};
use crate::refill::Refill;
use crate::source::Source;
use crate::stop::Stop;
use adx_units::OutOfMemory;

/// How the rest of an input was read.
#[derive(Clone, Copy, Debug, PartialEq, Eq)]
pub enum Rest {
    /// All of it.
    Whole,
    /// As much as the limit allows; one byte more was seen, and is lost.
    PastLimit,
}

/// Reads a source to its end, and adds what it gives to `out`: at most `limit` bytes. Memory is asked
/// for before bytes are taken, so that what was taken is in `out` whatever the answer is, but for
/// the one byte past the limit.
pub fn read_rest<S: Source>(source: &mut S, out: &mut Vec<u8>, limit: u64) -> Result<Rest, Stop>
    ensures reads { WhereTold (S.tape source.old) (S.tape source.new) (ReadsRest limit out.old.items out.new.items result) }
    ensures within { Within limit out.old.items out.new.items }
    ensures full { IfOk result (IsFull limit out.old.items out.new.items) }
    ensures cause { HasReadCause (S.faults source.old) (S.faults source.new) result }
    ensures same { S.place source.new ≡ S.place source.old }
{
    let mut room = limit;
    while room > 0 {
        let wanted = room.min(CHUNK as u64) as usize;
        match add_some(source, out, wanted)? {
            0 => return Ok(Rest::Whole),
            count => room -= count as u64,
        }
    }
    match probe(source) {
        Ok(Refill::PastLimit) => Ok(Rest::PastLimit),
        Ok(_) => Ok(Rest::Whole),
        Err(_) => Err(Stop::ReadFault),
    }
}

/// Adds at most so many of the next bytes to `out`, and says how many; 0 only at the end of the input.
fn add_some<S: Source>(source: &mut S, out: &mut Vec<u8>, wanted: usize) -> Result<usize, Stop>
    requires some { 0 < wanted }
    ensures count { IfOk result (λ n. Within wanted out.old.items out.new.items × (length out.new.items ≡ length out.old.items + n)) }
    ensures failed { OnErr result (out.new.items ≡ out.old.items) }
    ensures reads { WhereTold (S.tape source.old) (S.tape source.new) (AddsSome out.old.items out.new.items result) }
    ensures cause { HasReadCause (S.faults source.old) (S.faults source.new) result }
    ensures same { S.place source.new ≡ S.place source.old }
{
    let start = out.as_slice().len();
    grow(out, wanted)?;
    match take_behind(source, out, start) {
        Ok(count) => {
            out.truncate(start + count);
            Ok(count)
        }
        Err(_) => {
            out.truncate(start);
            Err(Stop::ReadFault)
        }
    }
}

/// Takes the next bytes of the source after so many bytes; 0 only at the end of the input.
fn take_behind<S: Source>(source: &mut S, out: &mut Vec<u8>, start: usize) -> Result<usize, Failed>
    requires some { start < length out.old.items }
    ensures count { IfOk result (λ n. n ≤ length out.new.items - start) }
    ensures front { take start out.new.items ≡ take start out.old.items }
    ensures size { length out.new.items ≡ length out.old.items }
    ensures bytes { WhereTold (S.tape source.old) (S.tape source.new) (Fills (drop start out.new.items) result) }
    ensures cause { HasCause (S.faults source.old) (S.faults source.new) result }
    ensures same { S.place source.new ≡ S.place source.old }
{
    source.take(&mut out[start..])
}

/// Makes the list longer by so many bytes.
fn grow(out: &mut Vec<u8>, more: usize) -> Result<(), OutOfMemory>
    ensures grown { OnOk result ((take (length out.old.items) out.new.items ≡ out.old.items)
        × (length out.new.items ≡ length out.old.items + more)) }
    ensures failed { OnErr result (out.new.items ≡ out.old.items) }
{
    let end = out.len().checked_add(more).ok_or(OutOfMemory)?;
    out.resize(end, 0)?;
    Ok(())
}
