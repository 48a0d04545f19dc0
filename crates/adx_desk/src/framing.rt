//! Planned entries written into a frame.
ghost use Rattle.std.specs.Prelude.{◌≡◌, ◌+◌, ◌≤◌, length, OnOk};
ghost use Rattle.day_entries.specs.Entries.{Fits, IsNoticeOrMoment, IsSpelled, entry_bytes};
ghost use Rattle.day_machine.specs.declared.held.TheConstants.{NOTICE_ROOM};

use adx_io::Frame;
use adx_units::OutOfMemory;
use day_entries::encode;
use day_rules::Entry;

/// Makes the frame that of an entry in a journal of this format; where memory is refused the frame is empty.
pub(crate) fn put_planned(frame: &mut Frame, format: u8, entry: &Entry) -> Result<(), OutOfMemory>
    requires { IsSpelled entry.now }
    ensures payload { OnOk result (frame.new.payload ≡ entry_bytes format entry.now) }
    ensures fits { OnOk result (Fits format entry.now) }
{
    frame.clear();
    encode(entry, format, frame)?;
    Ok(())
}

/// Makes the frame that of the entry of a notice or a moment, without memory.
pub(crate) fn put_notice(frame: &mut Frame, format: u8, entry: &Entry)
    requires kind { IsNoticeOrMoment entry.now }
    requires room { NOTICE_ROOM ≤ frame.old.spare + length frame.old.payload }
    ensures payload { frame.new.payload ≡ entry_bytes format entry.now }
    ensures fits { Fits format entry.now }
    ensures room { NOTICE_ROOM ≤ frame.new.spare + length frame.new.payload }
{
    frame.clear();
    let encoded = encode(entry, format, frame);
    prove!(encoded.is_ok());
}
