// Words of small sources, by running.
use crate::{Keyword, Reader, Token, Word, first_foreign};

fn is_at(word: Option<Word>, text: &[u8], place: usize) -> bool {
    word.is_some_and(|word| word.text == text && word.place == place)
}

fn token_of(text: &[u8]) -> Option<Token<'_>> {
    Word { text, place: 0 }.token()
}

fn is_goto(text: &[u8]) -> bool {
    matches!(token_of(text), Some(Token::Keyword(Keyword::Goto, _)))
}

fn is_name(text: &[u8]) -> bool {
    token_of(text).is_some_and(|token| token.as_name().is_some())
}

fn code_of(text: &[u8]) -> Option<u8> {
    token_of(text)?.as_symbol()
}

#[test]
fn words_stand_at_their_places(rt: HostRuntime) {
    let mut reader = Reader::new(b"if a{");
    assert!(rt; is_at(reader.next(), b"if", 0));
    assert!(rt; is_at(reader.next(), b"a", 3));
    assert!(rt; is_at(reader.next(), b"{", 4));
    assert!(rt; reader.next().is_none());
}

#[test]
fn separators_make_no_word(rt: HostRuntime) {
    assert!(rt; Reader::new(b"").next().is_none());
    assert!(rt; Reader::new(b" \t\r\n").next().is_none());
}

#[test]
fn a_word_can_be_more_than_its_token(rt: HostRuntime) {
    assert!(rt; is_goto(b"goto") && is_name(b"goto"));
    assert!(rt; is_name(b"z") && code_of(b"z") == Some(26));
    assert!(rt; !is_name(b"0") && code_of(b"0") == Some(27));
    assert!(rt; token_of(b"a1").is_none());
}

#[test]
fn foreign_bytes_are_found(rt: HostRuntime) {
    assert_eq!(rt; first_foreign(b"#a"), Some(0));
    assert_eq!(rt; first_foreign(b"a\t#"), Some(2));
    assert_eq!(rt; first_foreign(b"alphabet={a}"), None);
}
