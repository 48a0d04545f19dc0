//! Where a buffer's bytes are, and how they move.
ghost use Rattle.std.specs.Prelude.{◌≡◌, ◌≤◌, ◌<◌, ◌+◌, ◌-◌, ℕ, length, take, drop, ◌++◌, IfOk};
ghost use Rattle.adx_io.specs.Streams.{HasCause, Moved, WhereTold};
ghost use Rattle.http_connection.specs.Order.{IsOrdered, kept_of, pending_of};

use adx_io::{Failed, Source};

/// Where the kept bytes and the pending ones are.
#[derive(Clone, Copy)]
pub(crate) struct Offsets {
    pub start: usize,
    pub joined: usize,
    pub at: usize,
    pub end: usize,
}

/// The bytes from one place to another.
pub(crate) fn between(bytes: &[u8], from: usize, to: usize) -> &[u8]
    requires order { from ≤ to }
    requires within { to ≤ length bytes.now }
    ensures { result.now ≡ drop from (take to bytes.now) }
{
    let (front, _) = bytes.split_at(to);
    let (_, part) = front.split_at(from);
    part
}

/// Copies the bytes from one place to another down to a place at or before the first.
fn move_down(bytes: &mut [u8], from: usize, to: usize, down: usize)
    requires order { from ≤ to }
    requires within { to ≤ length bytes.old }
    requires down { down ≤ from }
    ensures size { length bytes.new ≡ length bytes.old }
    ensures moved { drop down (take (down + (to - from)) bytes.new) ≡ drop from (take to bytes.old) }
    ensures below { (n : ℕ) → n ≤ down → take n bytes.new ≡ take n bytes.old }
    ensures above { (n : ℕ) → down + (to - from) ≤ n → drop n bytes.new ≡ drop n bytes.old }
{
    bytes.copy_within(from..to, down);
}

/// Makes room after the pending bytes: where there is none, all bytes move to the front.
pub(crate) fn make_room(bytes: &mut [u8], offsets: Offsets) -> Offsets
    requires ordered { IsOrdered bytes.old offsets }
    requires room { (offsets.joined - offsets.start) + (offsets.end - offsets.at) < length bytes.old }
    ensures ordered { IsOrdered bytes.new result }
    ensures kept { kept_of bytes.new result ≡ kept_of bytes.old offsets }
    ensures pending { pending_of bytes.new result ≡ pending_of bytes.old offsets }
    ensures room { result.end < length bytes.new }
    ensures size { length bytes.new ≡ length bytes.old }
{
    if offsets.end < bytes.len() {
        return offsets;
    }
    let kept = offsets.joined - offsets.start;
    move_down(bytes, offsets.start, offsets.joined, 0);
    move_down(bytes, offsets.at, offsets.end, kept);
    Offsets {
        start: 0,
        joined: kept,
        at: kept,
        end: kept + (offsets.end - offsets.at),
    }
}

/// Joins the first `count` pending bytes to the kept ones.
pub(crate) fn join(bytes: &mut [u8], offsets: Offsets, count: usize) -> Offsets
    requires ordered { IsOrdered bytes.old offsets }
    requires there { count ≤ offsets.end - offsets.at }
    ensures ordered { IsOrdered bytes.new result }
    ensures kept { kept_of bytes.new result ≡ kept_of bytes.old offsets ++ take count (pending_of bytes.old offsets) }
    ensures pending { pending_of bytes.new result ≡ drop count (pending_of bytes.old offsets) }
    ensures size { length bytes.new ≡ length bytes.old }
{
    let joined = Offsets {
        start: offsets.start,
        joined: offsets.joined + count,
        at: offsets.at + count,
        end: offsets.end,
    };
    if offsets.joined == offsets.at {
        return joined;
    }
    move_down(bytes, offsets.at, offsets.at + count, offsets.joined);
    joined
}

/// Takes bytes after a place.
pub(crate) fn take_behind<S: Source>(
    bytes: &mut [u8],
    end: usize,
    source: &mut S,
) -> Result<usize, Failed>
    requires { end ≤ length bytes.old }
    ensures count { IfOk result (λ n. n ≤ length bytes.old - end) }
    ensures size { length bytes.new ≡ length bytes.old }
    ensures front { take end bytes.new ≡ take end bytes.old }
    ensures told { WhereTold (S.tape source.old) (S.tape source.new) (Moved (drop end bytes.new) result) }
    ensures cause { HasCause (S.faults source.old) (S.faults source.new) result }
    ensures same { S.place source.new ≡ S.place source.old }
{
    source.take(&mut bytes[end..])
}
