ghost use Rattle.std.specs.Prelude.{◌≡◌};
ghost use Rattle.meaning.specs.Numbers.{refusal_number, from_tape};

use tape::kinds::TapeRefusal;

// Why a call on a run is refused, with its number. The three refusals of tapes are variants here too: with a `TapeRefusal` inside,
// a call on a run could be refused for a `Shape`, which only the making of a tape is.
#[derive(Clone, Copy, PartialEq, Eq, Debug, Drop)]
pub enum Refusal {
    // the code is above 36
    Code = 12,
    // there is no cell that way
    Edge = 13,
    // as many cells are nonblank as may be
    Capacity = 14,
    // the run has a verdict
    Verdict = 15,
    // the run's number is none of the machine's
    Number = 16,
    // the machine does not know the symbol at the head
    Symbol = 17,
    // the step total is at its limit
    Total = 18,
    // the fuel is above its limit
    Fuel = 19,
}

impl Refusal {
    // The refusal's number.
    pub fn number(self) -> u8
        ensures { result ≡ refusal_number self }
    {
        self as u8
    }
}

// A tape's refusal as a run's. No call on a tape answers `Shape`.
impl From<TapeRefusal> for Refusal {
    ghost from_gives = { λ t r. r ≡ from_tape t };

    fn from(refusal: TapeRefusal) -> Refusal {
        match refusal {
            TapeRefusal::Code | TapeRefusal::Shape => Refusal::Code,
            TapeRefusal::Edge => Refusal::Edge,
            TapeRefusal::Capacity => Refusal::Capacity,
        }
    }
}
