// The reading of a whole source.
ghost use Rattle.std.specs.Prelude.{◌≡◌};
ghost use Rattle.bounded.specs.Held.{held};
ghost use Rattle.words.specs.Words.{words};
ghost use Rattle.events.specs.Notes.{no_notes};
ghost use Rattle.notes.specs.Noted.{notes_of};
ghost use Rattle.compiler.specs.Reading.{source_of, rest};
ghost use Rattle.compiler.specs.Compiling.{Begins, ReadAs};

use super::{Lexer, Parser};
use bounded::list::BoundedList;
use meaning::faults::Fault;
use notes::kinds::{Module, Span};
use notes::notes::Notes;
use program::program::Program;

impl<'a, 'n, 'm> Parser<'a, 'n, 'm> {
    // Before the first word of a source.
    pub(crate) fn new(
        source: &'a [u8],
        modules: &'n mut BoundedList<'m, Module>,
        gotos: &'n mut BoundedList<'m, Span>,
    ) -> Parser<'a, 'n, 'm>
        ensures source { source_of result.lexer ≡ source.now }
        ensures rest { rest result.lexer ≡ words source.now }
        ensures notes { notes_of result.source.now result.notes ≡ no_notes (held modules.old).capacity (held gotos.old).capacity }
    {
        Parser {
            source,
            lexer: Lexer::new(source),
            notes: Notes::new(modules, gotos),
        }
    }

    // The program of a source that breaks no rule.
    pub(crate) fn read(&mut self) -> Result<Program, Fault>
        requires { Begins self.now }
        ensures { ReadAs result (source_of self.old.lexer) }
    {
        self.program()?;
        match self.notes.tell(self.source) {
            Some(fault) => Err(fault),
            None => Ok(self.notes.program(self.source).unwrap()),
        }
    }
}
