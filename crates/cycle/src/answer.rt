// The answers of document 01's table, and 7 of document 02, order 4.
ghost use Rattle.std.specs.Prelude.{◌≡◌};
ghost use Rattle.cycle.specs.Answers.{is_taken, number_of};

#[derive(Clone, Copy, Debug, PartialEq, Eq)]
pub enum Answer {
    Taken,
    Stale,
    Repeat,
    CountEnded,
    WrongKind,
    OutboxShort,
    MapRefused,
    BothWays,
    // No record was settled: no refusal, and no number of the table.
    NothingSettled,
}

impl Answer {
    // The answer's number in the table.
    pub fn number(self) -> u8
        ensures { result ≡ number_of self }
    {
        match self {
            Answer::Taken => 0,
            Answer::Stale => 1,
            Answer::Repeat => 2,
            Answer::CountEnded => 3,
            Answer::WrongKind => 4,
            Answer::OutboxShort => 5,
            Answer::MapRefused => 6,
            Answer::BothWays => 7,
            Answer::NothingSettled => 255,
        }
    }

    // Is the monitor stepped?
    pub fn is_taken(self) -> bool
        ensures { result ≡ is_taken self }
    {
        self == Answer::Taken
    }
}
