ghost use Rattle.std.specs.Prelude.{◌≡◌};
ghost use Rattle.tape.specs.Display.{displayed, shown};

use crate::symbol::{BLANK_BYTE, letter_of};
use crate::tape::Tape;

// How many cells the display shows, and how many of them stand left of the head.
pub const WIDTH: usize = 15;

const LEFT_OF_HEAD: i32 = 7;

// The byte that shows a cell: the letter, `_` for blank, a space where there is no cell.
pub fn shown_byte(cell: Option<u8>) -> u8
    ensures { result ≡ shown cell }
{
    match cell {
        Some(code) => letter_of(code).unwrap_or(BLANK_BYTE),
        None => b' ',
    }
}

// The cells head - 7 to head + 7.
pub fn display<T: Tape>(tape: &T) -> [u8; WIDTH]
    ensures { result ≡ displayed (T.Tape.meaning tape.now) }
{
    std::array::from_fn(|i| shown_byte(tape.look(i as i32 - LEFT_OF_HEAD)))
}
