ghost use Rattle.std.specs.Prelude.{◌≡◌};
ghost use Rattle.transcript.specs.Lay.{laid, lay_one};

use tape::kinds::{Direction, TapeRefusal};
use tape::tape::Tape;

// Lays a word left of the head, which ends on its first cell.
#[tactic(auto, using(crate::proofs::Laying::laid_push))]
pub fn lay<T: Tape>(tape: &mut T, codes: &[u8]) -> Result<(), TapeRefusal>
    ensures answer { result ≡ (laid codes.now (T.Tape.meaning tape.old)).answer }
    ensures after { T.Tape.meaning tape.new ≡ (laid codes.now (T.Tape.meaning tape.old)).tape }
    ensures lent { T.Tape.lent tape.new ≡ T.Tape.lent tape.old }
{
    for code in codes.iter().rev() {
        lay_one(tape, *code)?;
    }
    Ok(())
}

// Lays a code into the cell left of the head, which goes there.
fn lay_one<T: Tape>(tape: &mut T, code: u8) -> Result<(), TapeRefusal>
    ensures answer { result ≡ (lay_one code (T.Tape.meaning tape.old)).answer }
    ensures after { T.Tape.meaning tape.new ≡ (lay_one code (T.Tape.meaning tape.old)).tape }
    ensures lent { T.Tape.lent tape.new ≡ T.Tape.lent tape.old }
{
    tape.shift(Direction::Left)?;
    tape.put(code)
}
