ghost use Rattle.std.specs.Prelude.{◌≡◌, ◌≤◌, length};
ghost use Rattle.std.specs.Option.{option_map};
ghost use Rattle.transcript.specs.Word.{codes_in, read_word};

use crate::word::Word;
use bounded::inline::InlineList;
use tape::symbol::{BLANK, cell_code_of};

impl Word {
    // Reads a text, or nothing where it is no word.
    pub fn read(text: &[u8]) -> Option<Word>
        ensures { option_map codes_in result ≡ read_word text.now }
    {
        let mut codes = InlineList::new(BLANK);
        for byte in text {
            codes.push(cell_code_of(*byte)?).ok()?;
        }
        Some(Word { codes })
    }

    // The codes of its cells.
    pub fn codes(&self) -> &[u8]
        ensures codes { result.now ≡ codes_in self.now }
        ensures short { length result.now ≤ 80 }
    {
        self.codes.as_slice()
    }
}
