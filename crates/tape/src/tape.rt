ghost use Rattle.std.specs.Prelude.{◌≡◌, ℕ, List};
ghost use Rattle.tape.specs.Meaning.{Meaning, Valid, looked, put_answer, put_after, shift_answer, shift_after};

use crate::kinds::{Direction, TapeRefusal};

pub const MAX_SIZE: usize = 4096;

// A tape by its meaning: capacity, cells and head. Each call is an equation over it, so that
// what is built on tapes is proved once, against the meaning, for every implementation.
pub trait Tape {
    ghost meaning: { Self → Meaning };

    // what each implementation proves: a tape that exists is in range
    ghost sound: { (t : Self) → Valid (meaning t) };

    // the ghost names of the references to the memory that was lent, which no call changes: each call says so by itself, and what is built on
    // tapes with it, as a trait has no clause for all its calls
    ghost lent: { Self → List ℕ };

    // The code at a signed distance from the head, or nothing where there is no cell.
    fn look(&self, distance: i32) -> Option<u8>
        ensures { result ≡ looked (meaning self.now) distance };

    // Writes a code into the cell at the head.
    fn put(&mut self, code: u8) -> Result<(), TapeRefusal>
        ensures answer { result ≡ put_answer (meaning self.old) code }
        ensures after { meaning self.new ≡ put_after (meaning self.old) code }
        ensures lent { lent self.new ≡ lent self.old };

    // Moves the head one cell.
    fn shift(&mut self, direction: Direction) -> Result<(), TapeRefusal>
        ensures answer { result ≡ shift_answer (meaning self.old) direction }
        ensures after { meaning self.new ≡ shift_after (meaning self.old) direction }
        ensures lent { lent self.new ≡ lent self.old };
}
