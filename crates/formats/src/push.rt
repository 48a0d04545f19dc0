//! Numbers pushed at the end of a text.
ghost use Rattle.std.specs.Prelude.{◌≡◌, ◌++◌, OnOk, string_bytes};
ghost use Rattle.std.specs.Fmt.{decimal};
ghost use Rattle.formats.specs.Parts.{part};

use adx_units::OutOfMemory;
use itoa::Buffer;

/// Puts a number at the end, in decimal.
pub fn push_number(out: &mut String, n: u64) -> Result<(), OutOfMemory>
    ensures { OnOk result (string_bytes out.new ≡ string_bytes out.old ++ decimal n) }
{
    let mut digits = Buffer::new();
    out.push_str(digits.format(n))?;
    Ok(())
}

/// Puts a space and a number at the end.
pub fn push_part(out: &mut String, n: u64) -> Result<(), OutOfMemory>
    ensures { OnOk result (string_bytes out.new ≡ string_bytes out.old ++ part (decimal n)) }
{
    out.push_str(" ")?;
    push_number(out, n)
}
