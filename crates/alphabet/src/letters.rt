// The alphabet of a machine.
ghost use Rattle.std.specs.Prelude.{◌≡◌, ◌≤◌, true, length};
ghost use Rattle.bounded.specs.Inline.{items_of};
ghost use Rattle.tape.specs.Meaning.{all_codes};
ghost use Rattle.meaning.specs.Codes.{different, columns};
ghost use Rattle.alphabet.specs.Columns.{column_map};

use bounded::inline::InlineList;
use operations::MAX_LETTERS;

pub mod operations;

// 1 to 36 letters, as codes in order of writing, which differ from one another and from blank. 560 bytes.
#[derive(Clone, Copy, Drop)]
pub struct Alphabet {
    letters: InlineList<u8, MAX_LETTERS>,
    // the column of each code, if it has one
    column_of: [Option<u8>; 256],
    ghost lettered: { 1 ≤ length (items_of letters) },
    ghost codes: { all_codes (items_of letters) ≡ true },
    ghost differ: { different (columns (items_of letters)) ≡ true },
    ghost mapped: { column_of ≡ column_map (columns (items_of letters)) },
}
