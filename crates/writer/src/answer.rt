// Why the writer refuses a record, and the numbers of its answers.
ghost use Rattle.std.specs.Prelude.{◌≡◌};
ghost use Rattle.writer.specs.Answers.{number_of};

// In the order of the checks.
#[derive(Clone, Copy, Debug, PartialEq, Eq)]
pub enum Refused {
    ReservedBit,
    QuantityAbove,
    OutboxShort,
}

// The answer's number: 0 where the record is written.
pub fn number(written: Result<(), Refused>) -> u8
    ensures { result ≡ number_of written }
{
    match written {
        Ok(()) => 0,
        Err(Refused::ReservedBit) => 1,
        Err(Refused::QuantityAbove) => 2,
        Err(Refused::OutboxShort) => 3,
    }
}
