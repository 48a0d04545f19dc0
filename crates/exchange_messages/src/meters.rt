//! What an operator reads of a day.
ghost use Rattle.std.specs.Prelude.{◌≡◌, ◌++◌, OnOk, string_bytes};
ghost use Rattle.exchange_messages.specs.Meters.{counts_part, meter_text, meters_text, money_part};

use adx_json::push_number;
use adx_units::OutOfMemory;
use day_rules::Meters;

/// Writes a number after its name.
fn push_meter(out: &mut String, name: &str, number: u64) -> Result<(), OutOfMemory>
    ensures { OnOk result (string_bytes out.new ≡ string_bytes out.old ++ meter_text name.now number) }
{
    out.push_str(name)?;
    push_number(out, number)
}

/// Writes the counts.
fn push_counts(out: &mut String, meters: &Meters) -> Result<(), OutOfMemory>
    ensures { OnOk result (string_bytes out.new ≡ string_bytes out.old ++ counts_part meters.now) }
{
    push_meter(out, "{\"entries\":", meters.entries)?;
    push_meter(out, ",\"asks\":", meters.asks)?;
    push_meter(out, ",\"awards\":", meters.awards)?;
    push_meter(out, ",\"wins\":", meters.wins)?;
    push_meter(out, ",\"bills\":", meters.bills)?;
    push_meter(out, ",\"losses\":", meters.losses)?;
    push_meter(out, ",\"expired\":", meters.expired)
}

/// Writes the money.
fn push_money(out: &mut String, meters: &Meters) -> Result<(), OutOfMemory>
    ensures { OnOk result (string_bytes out.new ≡ string_bytes out.old ++ money_part meters.now) }
{
    push_meter(out, ",\"reserved\":", meters.reserved)?;
    push_meter(out, ",\"billed\":", meters.billed)
}

/// Writes the meters of a day as one JSON object, in the order of their fields and without a newline: counts, and money
/// in units.
pub fn push_meters(out: &mut String, meters: &Meters) -> Result<(), OutOfMemory>
    ensures { OnOk result (string_bytes out.new ≡ string_bytes out.old ++ meters_text meters.now) }
{
    push_counts(out, meters)?;
    push_money(out, meters)?;
    Ok(out.push_str("}")?)
}
