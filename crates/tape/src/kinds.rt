ghost use Rattle.std.specs.Prelude.{◌≡◌};
ghost use Rattle.tape.specs.Meaning.{step_of};
ghost use Rattle.tape.specs.Refusals.{refusal_number};

// The way that the head goes.
#[derive(Clone, Copy, PartialEq, Eq, Debug, Drop)]
pub enum Direction {
    Left,
    Right,
}

impl Direction {
    // The distance of the cell next to the head.
    pub fn step(self) -> i32
        ensures { result ≡ step_of self }
    {
        match self {
            Direction::Left => -1,
            Direction::Right => 1,
        }
    }
}

// Why a call on a tape, or its making, is refused.
#[derive(Clone, Copy, PartialEq, Eq, Debug, Drop)]
pub enum TapeRefusal {
    // the code is above 36
    Code = 12,
    // there is no cell that way
    Edge = 13,
    // as many cells are nonblank as may be
    Capacity = 14,
    // size, head, a cell's code or the number of records is out of range
    Shape = 20,
}

impl TapeRefusal {
    // The refusal's number.
    pub fn number(self) -> u8
        ensures { result ≡ refusal_number self }
    {
        self as u8
    }
}
