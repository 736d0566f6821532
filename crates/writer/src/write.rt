// The entries: a record's values and a lent outbox in, an answer out. The tests come before the first byte is written.
ghost use Rattle.std.specs.Prelude.{◌≡◌};
ghost use Rattle.cycle.specs.Records.{minor, major};
ghost use Rattle.writer.specs.Write.{checked, wrote, write};

use crate::answer::Refused;
use crate::record::{put_major, put_minor};
use crate::test::{quantities_right, reserved_zero};
use cycle::values::{Major, Minor};
use feed::size::{MAJOR_LENGTH, MINOR_LENGTH};

// The answer, by what the tests say and in their order: reserved bits, quantities, the outbox's length.
#[tactic(auto, unfolding(crate::specs::Write::checked))]
fn checked(zero: bool, right: bool, fits: bool) -> Result<(), Refused>
    ensures { result ≡ checked zero right fits }
{
    if !zero {
        return Err(Refused::ReservedBit);
    }
    if !right {
        return Err(Refused::QuantityAbove);
    }
    if !fits {
        return Err(Refused::OutboxShort);
    }
    Ok(())
}

// The 59 bytes of a minor record, which has no quantities; bytes behind them keep their values, and on a refusal all do.
pub fn write_minor(values: Minor, out: &mut [u8]) -> Result<(), Refused>
    ensures { wrote result out.new ≡ write (minor values) out.old }
{
    checked(reserved_zero(values), true, MINOR_LENGTH <= out.len())?;
    put_minor(&mut out[..MINOR_LENGTH], values);
    Ok(())
}

// The 619 bytes of a major record.
pub fn write_major(values: Major, out: &mut [u8]) -> Result<(), Refused>
    ensures { wrote result out.new ≡ write (major values) out.old }
{
    checked(
        reserved_zero(values.minor),
        quantities_right(values.quantities),
        MAJOR_LENGTH <= out.len(),
    )?;
    put_major(&mut out[..MAJOR_LENGTH], values);
    Ok(())
}
