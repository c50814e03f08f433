// Where in a table its check stands.
ghost use Rattle.std.specs.Prelude.{◌<◌};
ghost use Rattle.format.specs.Words.{value_end};

#[derive(Clone, Copy, Debug, PartialEq, Eq)]
pub enum State {
    // A head or the end is next.
    Head,
    // So many matches of fields from the first number on are due, then so many emissions.
    Matches { from: u32, due: u32, emissions: u32 },
    // A weight is next, of so many emissions.
    Emissions { due: u32 },
    // A set of a field from the first number on may be next, or what follows an emission before so many more.
    Sets { from: u32, due: u32 },
    // The end was read.
    End,
}

// How far a check has come: its state, and how many heads it read.
#[derive(Clone, Copy, Debug, PartialEq, Eq)]
pub struct Checker {
    pub state: State,
    pub rows: u32,
    ghost countable: { rows < value_end },
}
