// The word of an input.
ghost use Rattle.std.specs.Prelude.{◌≡◌, true};
ghost use Rattle.bounded.specs.Inline.{items_of};
ghost use Rattle.tape.specs.Meaning.{all_codes};

use bounded::inline::InlineList;

pub mod operations;

// How many cells a word may have.
pub const LONGEST_WORD: usize = 80;

// A word that was read: the symbol codes of its cells.
#[derive(Clone, Copy, Drop)]
pub struct Word {
    codes: InlineList<u8, LONGEST_WORD>,
    ghost cells: { all_codes (items_of codes) ≡ true },
}
