//! A source that gives one message again and again, and a sink that counts the replies to it.
use adx_io::{Failed, Sink, Source};

/// A source that gives a message so many times, at most once at a call, and then ends. It tells nothing.
#[derive(Drop)]
pub(crate) struct Repeating {
    message: &'static [u8],
    left: u64,
    rest: &'static [u8],
}

impl Repeating {
    /// A source of so many times this message.
    pub(crate) fn new(message: &'static [u8], count: u64) -> Repeating {
        Repeating {
            message,
            left: count,
            rest: &[],
        }
    }
}

impl Source for Repeating {
    ghost use Rattle.std.specs.Prelude.{None};

    ghost faults = { λ _. 0 };

    ghost tape = { λ _. None };

    fn take(&mut self, out: &mut [u8]) -> Result<usize, Failed> {
        if self.rest.is_empty() && self.left > 0 {
            self.left -= 1;
            self.rest = self.message;
        }
        let count = out.len().min(self.rest.len());
        let (front, behind) = self.rest.split_at(count);
        out[..count].copy_from_slice(front);
        self.rest = behind;
        Ok(count)
    }
}

/// A sink that takes all, and counts the pieces that are this reply and those that aren't. It tells nothing.
#[derive(Drop)]
pub(crate) struct Counting {
    reply: &'static [u8],
    pub(crate) replies: u64,
    pub(crate) others: u64,
}

impl Counting {
    /// A sink that counts this reply.
    pub(crate) fn new(reply: &'static [u8]) -> Counting {
        Counting {
            reply,
            replies: 0,
            others: 0,
        }
    }
}

impl Sink for Counting {
    ghost use Rattle.std.specs.Prelude.{None};

    ghost faults = { λ _. 0 };

    ghost held = { λ _. None };

    fn put(&mut self, piece: &[u8]) -> Result<usize, Failed> {
        if piece == self.reply {
            self.replies = self.replies.saturating_add(1);
        } else {
            self.others = self.others.saturating_add(1);
        }
        Ok(piece.len())
    }
}
