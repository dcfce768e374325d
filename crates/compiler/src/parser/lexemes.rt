// One word, by what is awaited.
ghost use Rattle.std.specs.Prelude.{◌≡◌};
ghost use Rattle.words.specs.Words.{words};
ghost use Rattle.compiler.specs.Reading.{source_of, rest, span_of, code_in, named, Came, Took, Marks, Symbols, Names, Directions};

use super::Lexer;
use meaning::faults::{Cause, Fault};
use notes::kinds::{Span, Symbol};
use tape::kinds::Direction;
use words::{Keyword, Mark, Reader, Token, Word};

// The fault of a word after which no program goes on, or of the end.
pub(super) fn unexpected(place: usize) -> Fault
    ensures { result ≡ record { cause = Cause.Word; place = place } }
{
    Fault {
        cause: Cause::Word,
        place,
    }
}

// The code of a word that is a symbol.
fn code_of(word: Word) -> Option<u8>
    ensures { result ≡ code_in word.entry.text.now }
{
    word.token()?.as_symbol()
}

// Is the word a name?
fn is_name(word: Word) -> bool
    ensures { result ≡ named word.entry.text.now }
{
    word.token().is_some_and(|token| token.as_name().is_some())
}

// The stretch of the source that a word is.
pub(super) fn span_of(word: Word) -> Span
    ensures { result ≡ span_of word.entry }
{
    Span {
        start: word.place,
        length: word.text.len(),
    }
}

impl<'a> Lexer<'a> {
    // Before the first word of a source.
    pub(crate) fn new(source: &'a [u8]) -> Lexer<'a>
        ensures source { source_of result ≡ source.now }
        ensures rest { rest result ≡ words source.now }
    {
        Lexer {
            reader: Reader::new(source),
        }
    }

    // The source that is read.
    pub(super) fn source(&self) -> &'a [u8]
        ensures { result.now ≡ source_of self.now }
    {
        self.reader.source()
    }

    // The next word, if there is one.
    pub(super) fn next(&mut self) -> Option<Word<'a>>
        ensures { Came result self.old self.new }
    {
        self.reader.next()
    }

    // The next word, where the end would come too early.
    pub(super) fn take(&mut self) -> Result<Word<'a>, Fault>
        ensures { Took result self.old self.new }
    {
        self.next().ok_or(unexpected(self.source().len()))
    }

    // This mark, by its place.
    pub(super) fn mark(&mut self, awaited: Mark) -> Result<usize, Fault>
        ensures { Marks result awaited self.old self.new }
    {
        let word = self.take()?;
        match word.token() {
            Some(Token::Mark(mark, _)) if mark == awaited => Ok(word.place),
            _ => Err(unexpected(word.place)),
        }
    }

    // The direction of a move.
    pub(super) fn direction(&mut self) -> Result<Direction, Fault>
        ensures { Directions result self.old self.new }
    {
        let word = self.take()?;
        match word.token() {
            Some(Token::Keyword(Keyword::Left, _)) => Ok(Direction::Left),
            Some(Token::Keyword(Keyword::Right, _)) => Ok(Direction::Right),
            _ => Err(unexpected(word.place)),
        }
    }

    // A symbol of the alphabet, of a changeto or of a case.
    pub(super) fn symbol(&mut self) -> Result<Symbol, Fault>
        ensures { Symbols result self.old self.new }
    {
        let word = self.take()?;
        let code = code_of(word).ok_or(unexpected(word.place))?;
        Ok(Symbol {
            code,
            place: word.place,
        })
    }

    // The name of a module, or of a goto.
    pub(super) fn name(&mut self) -> Result<Word<'a>, Fault>
        ensures { Names result self.old self.new }
    {
        let word = self.take()?;
        if !is_name(word) {
            return Err(unexpected(word.place));
        }
        Ok(word)
    }
}
