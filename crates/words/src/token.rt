// What a word can be to the grammar.
ghost use Rattle.std.specs.Prelude.{◌≡◌, ◌≤◌, true, false, IfSome, MatchOption};
ghost use Rattle.words.specs.Vocabulary.{is_name_text};
ghost use Rattle.words.specs.Tokens.{keyword_in, mark_in, kind, kind_of, text_of, OnlyKindOf};
ghost use Rattle.words.specs.Codes.{symbol_in, Codes};

use crate::word::Word;

// The fixed words of letters.
#[derive(Clone, Copy, Debug, PartialEq, Eq, Drop)]
pub enum Keyword {
    Alphabet,
    Module,
    If,
    While,
    Changeto,
    Move,
    Left,
    Right,
    Accept,
    Reject,
    Goto,
}

// The words of one byte that is no letter or digit.
#[derive(Clone, Copy, Debug, PartialEq, Eq, Drop)]
pub enum Mark {
    Open,
    Close,
    Comma,
    Equals,
}

// What a word is, by the part of the source that it is: a name is a `Name` only where it is no keyword and no symbol. So the
// parser asks `as_name` and `as_symbol` where it awaits a name or a symbol, and matches where it awaits a keyword or a mark.
#[derive(Clone, Copy, Drop)]
pub enum Token<'a> {
    Name(&'a [u8]),
    Symbol(&'a [u8]),
    Keyword(Keyword, &'a [u8]),
    Mark(Mark, &'a [u8]),
}

fn keyword_of(text: &[u8]) -> Option<Keyword>
    ensures { result ≡ keyword_in text.now }
{
    match text {
        b"alphabet" => Some(Keyword::Alphabet),
        b"module" => Some(Keyword::Module),
        b"if" => Some(Keyword::If),
        b"while" => Some(Keyword::While),
        b"changeto" => Some(Keyword::Changeto),
        b"move" => Some(Keyword::Move),
        b"left" => Some(Keyword::Left),
        b"right" => Some(Keyword::Right),
        b"accept" => Some(Keyword::Accept),
        b"reject" => Some(Keyword::Reject),
        b"goto" => Some(Keyword::Goto),
        _ => None,
    }
}

fn mark_of(text: &[u8]) -> Option<Mark>
    ensures { result ≡ mark_in text.now }
{
    match text {
        b"{" => Some(Mark::Open),
        b"}" => Some(Mark::Close),
        b"," => Some(Mark::Comma),
        b"=" => Some(Mark::Equals),
        _ => None,
    }
}

fn is_name(text: &[u8]) -> bool
    ensures { result ≡ is_name_text text.now }
{
    !text.is_empty() && text.iter().all(u8::is_ascii_alphabetic)
}

// The code of a symbol: 0 for `blank`, 1 to 26 for a to z, 27 to 36 for 0 to 9. Words know nothing of tapes, which say the codes of letters
// too; `codes_are` of meaning says that they are the same.
fn symbol_of(text: &[u8]) -> Option<u8>
    ensures { result ≡ symbol_in text.now }
{
    match text {
        [letter @ b'a'..=b'z'] => Some(*letter - b'a' + 1),
        [digit @ b'0'..=b'9'] => Some(*digit - b'0' + 27),
        b"blank" => Some(0),
        _ => None,
    }
}

impl<'a> Word<'a> {
    // What the word is to the grammar, or None where it is of no use to it, as `a1`.
    #[tactic(auto, using(crate::proofs::OneKind::only_kind), unfolding(crate::specs::Tokens::kind))]
    pub fn token(self) -> Option<Token<'a>>
        ensures kind { kind_of result ≡ kind self.entry.text.now }
        ensures law { OnlyKindOf self.entry.text.now (kind self.entry.text.now) }
        ensures text { IfSome result (λ t. text_of t ≡ self.entry.text.now) }
    {
        let text = self.text;
        if symbol_of(text).is_some() {
            Some(Token::Symbol(text))
        } else if let Some(keyword) = keyword_of(text) {
            Some(Token::Keyword(keyword, text))
        } else if let Some(mark) = mark_of(text) {
            Some(Token::Mark(mark, text))
        } else {
            is_name(text).then_some(Token::Name(text))
        }
    }
}

impl<'a> Token<'a> {
    // The word itself.
    pub fn text(self) -> &'a [u8]
        ensures { result.now ≡ text_of self.entry }
    {
        match self {
            Token::Name(text)
            | Token::Symbol(text)
            | Token::Keyword(_, text)
            | Token::Mark(_, text) => text,
        }
    }

    // The word as a name, if it is one: a keyword can be, and so can a symbol.
    pub fn as_name(self) -> Option<&'a [u8]>
        ensures { MatchOption result (is_name_text (text_of self.entry) ≡ false) (λ t. (is_name_text (text_of self.entry) ≡ true) × (t.now ≡ text_of self.entry)) }
    {
        let text = self.text();
        is_name(text).then_some(text)
    }

    // The symbol code of the word, if it is a symbol.
    pub fn as_symbol(self) -> Option<u8>
        ensures code { result ≡ symbol_in (text_of self.entry) }
        ensures small { IfSome result (λ c. c ≤ 36) }
        ensures codes { Codes }
    {
        symbol_of(self.text())
    }
}
