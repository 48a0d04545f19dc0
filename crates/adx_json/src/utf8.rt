//! UTF-8 (RFC 3629), byte by byte.
ghost use Rattle.std.specs.Prelude.{◌≡◌, ◌≤◌, length, IsTrue, IsUtf8};
ghost use Rattle.std.specs.List.{list_all};
ghost use Rattle.adx_units.specs.JsonTexts.{is_bare};
ghost use Rattle.adx_json.specs.Found.{BreaksIn};
ghost use Rattle.adx_json.specs.Machine.{after_lead as after_lead_of, tail_low, tail_high, tail_next, utf8_step as utf8_step_of};

/// What has to follow of a character: one, two or three continuation bytes, or those after a first byte that
/// leaves out a part of them.
#[derive(Clone, Copy, Debug, PartialEq, Eq)]
pub(crate) enum Tail {
    One,
    Two,
    Three,
    BehindE0,
    BehindEd,
    BehindF0,
    BehindF4,
}

/// What has to follow a character's first byte. None where no character begins so.
fn after_lead(byte: u8) -> Option<Tail>
    ensures { result ≡ after_lead_of byte }
{
    match byte {
        194..=223 => Some(Tail::One),
        224 => Some(Tail::BehindE0),
        237 => Some(Tail::BehindEd),
        225..=239 => Some(Tail::Two),
        240 => Some(Tail::BehindF0),
        241..=243 => Some(Tail::Three),
        244 => Some(Tail::BehindF4),
        _ => None,
    }
}

impl Tail {
    ghost use Rattle.std.specs.Prelude.{◌≡◌};

    /// The least byte that may come next.
    fn low(self) -> u8
        ensures { result ≡ tail_low self }
    {
        match self {
            Tail::BehindE0 => 160,
            Tail::BehindF0 => 144,
            _ => 128,
        }
    }

    /// The greatest byte that may come next.
    fn high(self) -> u8
        ensures { result ≡ tail_high self }
    {
        match self {
            Tail::BehindEd => 159,
            Tail::BehindF4 => 143,
            _ => 191,
        }
    }

    /// What has to follow that byte.
    fn next(self) -> Option<Tail>
        ensures { result ≡ tail_next self }
    {
        match self {
            Tail::One => None,
            Tail::Two | Tail::BehindE0 | Tail::BehindEd => Some(Tail::One),
            Tail::Three | Tail::BehindF0 | Tail::BehindF4 => Some(Tail::Two),
        }
    }
}

/// What has to follow after one more byte. None where that byte can't come there.
fn utf8_step(tail: Option<Tail>, byte: u8) -> Option<Option<Tail>>
    ensures { result ≡ utf8_step_of tail byte }
{
    match tail {
        None if byte < 128 => Some(None),
        None => match after_lead(byte) {
            Some(tail) => Some(Some(tail)),
            None => None,
        },
        Some(tail) if tail.low() <= byte && byte <= tail.high() => Some(tail.next()),
        Some(_) => None,
    }
}

/// Of bytes that represent themselves and aren't UTF-8, how many are left where they break it. None are left where
/// they only lack a character's end.
pub(crate) fn broken(run: &[u8]) -> usize
    requires bare { IsTrue (list_all is_bare run.now) }
    requires broken { ¬ (IsUtf8 run.now) }
    ensures within { result ≤ length run.now }
    ensures stops { BreaksIn run.now result }
{
    let mut tail = None;
    let mut left = run;
    'bytes: loop {
        let Some((byte, rest)) = left.split_first() else {
            return 0;
        };
        let Some(next) = utf8_step(tail, *byte) else {
            return left.len();
        };
        tail = next;
        left = rest;
    }
}
