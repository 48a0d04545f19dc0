//! What is at a place of a journal.
ghost use Rattle.day_journal.specs.Openings.{IsPlace, IsSized};

/// The longest payload of a frame, in bytes.
const LONGEST_PAYLOAD: u32 = 67_108_864;

/// What the first bytes of a place say.
#[derive(Clone, Copy, Debug, PartialEq, Eq)]
pub(crate) enum Place {
    /// An open gate and the length of a payload.
    Open(usize),
    /// A gate that isn't 1: the list ends.
    Closed,
    /// An open gate with a length that can't be, or no gate.
    Bad,
}

/// What is at a place with these first bytes: five, or all that there are.
pub(crate) fn place_in(bytes: &[u8]) -> Place
    ensures { IsPlace bytes.now result }
{
    if bytes.is_empty() {
        return Place::Bad;
    }
    if bytes[0] != 1 {
        return Place::Closed;
    }
    if bytes.len() < 5 {
        return Place::Bad;
    }
    sized(u32::from_le_bytes([bytes[1], bytes[2], bytes[3], bytes[4]]))
}

/// An open place with a payload of so many bytes.
fn sized(count: u32) -> Place
    ensures { IsSized count result }
{
    if count == 0 || count > LONGEST_PAYLOAD {
        Place::Bad
    } else {
        Place::Open(count as usize)
    }
}
