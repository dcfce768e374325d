// Commands: which one a word begins, and its rank.
ghost use Rattle.std.specs.Prelude.{◌≡◌};
ghost use Rattle.words.specs.Tokens.{kind};
ghost use Rattle.compiler.specs.Reading.{command_in, rank_of};

use super::Command;
use words::{Keyword, Token, Word};

impl Command {
    // The command that begins with this word, if one does.
    pub(super) fn of(word: Word) -> Option<Command>
        ensures { result ≡ command_in (kind word.entry.text.now) }
    {
        match word.token() {
            Some(Token::Keyword(Keyword::Changeto, _)) => Some(Command::Changeto),
            Some(Token::Keyword(Keyword::Move, _)) => Some(Command::Move),
            _ => None,
        }
    }

    // Its rank, a number since ranks are compared: behind a command of the same rank or a higher one it begins a block.
    pub(super) fn rank(self) -> u8
        ensures { result ≡ rank_of self }
    {
        self as u8
    }
}
