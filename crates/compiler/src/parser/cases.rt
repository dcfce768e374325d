// Cases: how one begins, and how many may stand in one another.
ghost use Rattle.std.specs.Prelude.{◌≡◌, suc, MatchOption};
ghost use Rattle.compiler.specs.Reading.{around, case_in};

use super::{Case, Head, Room};
use words::{Keyword, Token, Word};

// How many cases may stand in one another.
const DEEPEST: u8 = 16;

impl Room {
    // In a module.
    pub(super) fn full() -> Room
        ensures { around result ≡ 0 }
    {
        Room { cases: DEEPEST }
    }

    // In a case that stands here, if one may.
    pub(super) fn inner(self) -> Option<Room>
        ensures { MatchOption result (around self ≡ 16) (λ room. around room ≡ suc (around self)) }
    {
        let cases = self.cases.checked_sub(1)?;
        Some(Room { cases })
    }
}

impl Case {
    // The case that begins with this word, if one does.
    pub(super) fn of(word: Word, room: Room) -> Option<Case>
        ensures { result ≡ case_in word.entry room }
    {
        let head = match word.token()? {
            Token::Keyword(Keyword::If, _) => Head::If,
            Token::Keyword(Keyword::While, _) => Head::While,
            _ => return None,
        };
        Some(Case {
            head,
            place: word.place,
            room,
        })
    }
}
