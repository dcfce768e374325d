ghost use Rattle.std.specs.Prelude.{◌≡◌};
ghost use Rattle.words.specs.Bytes.{Text};
ghost use Rattle.events.specs.Notes.{is_column, letter_noted, write_noted};
ghost use Rattle.notes.specs.Noted.{notes_of};

use crate::kinds::Symbol;
use crate::notes::Notes;
use meaning::faults::Cause;

impl<'n, 'm> Notes<'n, 'm> {
    // Is this blank, or a letter of the alphabet?
    pub(super) fn knows(&self, code: u8) -> bool
        ensures { (source : Text) → result ≡ is_column (notes_of source self.now) code }
    {
        code == 0 || self.letters.as_slice().contains(&code)
    }

    // A symbol of the alphabet at a place; it is kept if it is new and there is room.
    pub fn letter(&mut self, letter: Symbol)
        ensures { (source : Text) → notes_of source self.new ≡ letter_noted letter.code letter.place (notes_of source self.old) }
    {
        let again = self.knows(letter.code);
        self.width = self.width.saturating_add(1);
        if again {
            self.violate(Cause::Alphabet, letter.place);
        } else {
            let _ = self.letters.push(letter.code);
        }
    }

    // The symbol of a changeto at a place.
    pub fn write(&mut self, symbol: Symbol)
        ensures { (source : Text) → notes_of source self.new ≡ write_noted symbol.code symbol.place (notes_of source self.old) }
    {
        self.current.write = Some(symbol.code);
        if !self.knows(symbol.code) {
            self.violate(Cause::Letter, symbol.place);
        }
    }
}
