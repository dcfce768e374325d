// What a program and its builder share.
ghost use Rattle.std.specs.Prelude.{◌≡◌, ◌*◌, ◌≤◌, length};
ghost use Rattle.bounded.specs.Inline.{items_of};
ghost use Rattle.meaning.specs.Codes.{columns};
ghost use Rattle.alphabet.specs.Alphabets.{letters_of};
ghost use Rattle.program.specs.Store.{AllCover};
ghost use Rattle.program.specs.Spare.{Bare, Spare};

use crate::blocks::{Basic, Shape};
use alphabet::letters::Alphabet;
use bounded::inline::InlineList;

pub(crate) mod operations;

// The alphabet, and a row of slots for each number, with a slot for each column: the letters in order, then blank.
// A basic block has the first slot of its row, and a slot that no block uses is `UNUSED`. 14,008 bytes.
#[derive(Drop)]
pub(crate) struct Store {
    pub(crate) alphabet: Alphabet,
    // what the block of each number is
    pub(crate) shapes: InlineList<Shape, 128>,
    // The rows share an array, each as wide as the alphabet: 128 rows of 37 slots take 56,832 bytes, and a stored program may have 16,384.
    // the symbols of a switch, in order of writing
    pub(crate) order: [u8; 1024],
    // the slots of a row
    pub(crate) slots: [Basic<u32>; 1024],
    ghost listed: { length order ≡ 1024 },
    ghost whole: { length slots ≡ 1024 },
    ghost room: { length (items_of shapes) * length (columns (letters_of alphabet)) ≤ 1024 },
    ghost covered: { AllCover (columns (letters_of alphabet)) (items_of shapes) order },
    ghost bare: { Bare (length (columns (letters_of alphabet))) (items_of shapes) slots },
    ghost spare: { Spare slots (length (items_of shapes) * length (columns (letters_of alphabet))) },
}
