ghost use Rattle.std.specs.Prelude.{◌≡◌, ◌+◌, length};
ghost use Rattle.tape.specs.Display.{displayed};
ghost use Rattle.transcript.specs.Lay.{blank_cells, word_cells};
ghost use Rattle.transcript.specs.Word.{codes_in};

use crate::lay::lay;
use crate::word::Word;
use bounded::list::BoundedList;
use sparse::record::NonblankCell;
use sparse::sparse::SparseTape;
use tape::dense::DenseTape;
use tape::display::{WIDTH, display};
use tape::symbol::BLANK;
use tape::tape::Tape;

// The size of the console's tapes, and the cell that a word is laid from.
const SIZE: usize = 256;

const FIRST_CELL: usize = 128;

// Lays a word onto a blank tape, and shows it.
#[tactic(auto, using(crate::proofs::Laying::word_on))]
fn lay_and_display<T: Tape>(tape: &mut T, word: &Word) -> [u8; WIDTH]
    requires { T.Tape.meaning tape.old ≡ blank_cells 256 (128 + length (codes_in word.now)) }
    ensures { result ≡ displayed (word_cells 256 128 (codes_in word.now)) }
{
    lay(tape, word.codes()).unwrap();
    display(tape)
}

// What a dense tape shows of a word.
pub fn dense_display(word: &Word) -> [u8; WIDTH]
    ensures { result ≡ displayed (word_cells 256 128 (codes_in word.now)) }
{
    let mut cells = [BLANK; SIZE];
    let mut tape = DenseTape::new(&mut cells, FIRST_CELL + word.codes().len());
    lay_and_display(&mut tape, word)
}

// What a sparse tape shows of a word.
pub fn sparse_display(word: &Word) -> [u8; WIDTH]
    ensures { result ≡ displayed (word_cells 256 128 (codes_in word.now)) }
{
    let mut memory = [NonblankCell {
        cell: 0,
        code: BLANK,
    }; SIZE];
    let mut records = BoundedList::new(&mut memory);
    let mut tape = SparseTape::new(&mut records, SIZE, FIRST_CELL + word.codes().len());
    lay_and_display(&mut tape, word)
}
