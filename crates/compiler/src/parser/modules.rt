// The descent, from a program to what stands in its modules.
ghost use Rattle.std.specs.Prelude.{[], ◌∷◌};
ghost use Rattle.events.specs.Descent.{inside_end, a_module, an_alphabet, edges, modules, start};
ghost use Rattle.compiler.specs.Reading.{Reads, Continues, Ends};

use super::lexemes::{span_of, unexpected};
use super::{Case, Parser, Room};
use meaning::faults::Fault;
use words::{Keyword, Mark, Token, Word};

impl<'a, 'n, 'm> Parser<'a, 'n, 'm> {
    // What stands in a module, and the brace behind it.
    fn inside(&mut self) -> Result<(), Fault>
        ensures { Reads result (inside_end ∷ []) self.old self.new }
    {
        let word = self.lexer.take()?;
        let room = Room::full();
        match Case::of(word, room) {
            Some(case) => self.switch(case),
            None => {
                self.notes.begin(word.place);
                self.commands(word, room)
            }
        }
    }

    // A module whose first word is taken.
    fn module(&mut self, word: Word<'a>) -> Result<(), Fault>
        ensures { Continues result (edges a_module) word.entry self.old self.new }
    {
        match word.token() {
            Some(Token::Keyword(Keyword::Module, _)) => {
                let name = self.lexer.name()?;
                self.notes.name(self.source, span_of(name));
                self.lexer.mark(Mark::Open)?;
                self.inside()
            }
            _ => Err(unexpected(word.place)),
        }
    }

    // The modules up to the end.
    fn modules(&mut self) -> Result<(), Fault>
        ensures { Ends result modules self.old self.new }
    {
        while let Some(word) = self.lexer.next() {
            self.module(word)?;
        }
        Ok(())
    }

    // The alphabet.
    fn alphabet(&mut self) -> Result<(), Fault>
        ensures { Reads result (an_alphabet ∷ []) self.old self.new }
    {
        let word = self.lexer.take()?;
        match word.token() {
            Some(Token::Keyword(Keyword::Alphabet, _)) => {
                self.lexer.mark(Mark::Equals)?;
                self.lexer.mark(Mark::Open)?;
                self.letters()
            }
            _ => Err(unexpected(word.place)),
        }
    }

    // A program up to the end.
    pub(crate) fn program(&mut self) -> Result<(), Fault>
        ensures { Ends result start self.old self.new }
    {
        self.alphabet()?;
        let word = self.lexer.take()?;
        self.module(word)?;
        self.modules()
    }
}
