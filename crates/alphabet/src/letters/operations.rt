ghost use Rattle.std.specs.Prelude.{◌≡◌, not, ◌&&◌, [], ◌∷◌, ◌<◌, length, IfSome, if◌then◌else◌, Some, None, nat_le, ◌==◌};
ghost use Rattle.bounded.specs.Inline.{items_of};
ghost use Rattle.tape.specs.Meaning.{all_codes};
ghost use Rattle.meaning.specs.Codes.{member, different, columns};
ghost use Rattle.alphabet.specs.Columns.{letters_fit, column_at, column_map};
ghost use Rattle.alphabet.specs.Alphabets.{letters_of, letters_if};

use crate::letters::Alphabet;
use bounded::inline::InlineList;
use std::array;
use tape::symbol::HIGHEST_CODE;

// How many letters there are at most.
pub const MAX_LETTERS: usize = 36;

// Is this a letter's code?
fn is_letter(code: u8) -> bool
    ensures { result ≡ (not (code == 0) && nat_le code 36) }
{
    code != 0 && code <= HIGHEST_CODE
}

// Is this a letter's code, and not among these?
#[tactic(auto, using(crate::proofs::Places::apart_by))]
fn stands_apart(code: u8, rest: &[u8]) -> bool
    ensures { result ≡ (nat_le code 36 && not (member code (columns rest.now))) }
{
    is_letter(code) && !rest.contains(&code)
}

// Is each of these a letter's code, and stands none twice?
fn are_letters(codes: &[u8]) -> bool
    ensures { result ≡ (all_codes codes.now && different (columns codes.now)) }
{
    let mut rest = codes;
    while let Some((code, behind)) = rest.split_first() {
        if !stands_apart(*code, behind) {
            return false;
        }
        rest = behind;
    }
    true
}

// The column of a code: where it stands among the letters and the blank behind them.
fn column_in(letters: &InlineList<u8, MAX_LETTERS>, code: u8) -> Option<u8>
    ensures { result ≡ column_at (columns (items_of letters.now)) code }
{
    let letters = letters.as_slice();
    let place = letters.iter().position(|letter| code == *letter);
    let behind = if code == 0 { Some(letters.len()) } else { None };
    place.or(behind).map(|column| column as u8)
}

// The column of each code.
fn columns_in(letters: &InlineList<u8, MAX_LETTERS>) -> [Option<u8>; 256]
    ensures { result ≡ column_map (columns (items_of letters.now)) }
{
    array::from_fn(|code| column_in(letters, code as u8))
}

impl Alphabet {
    // The alphabet with these letters, or nothing where one is no letter or stands twice, or there is none.
    #[tactic(auto, using(crate::proofs::Places::apart_few))]
    pub fn new(letters: &[u8]) -> Option<Alphabet>
        ensures { letters_if result ≡ (if letters_fit letters.now then Some letters.now else None) }
    {
        // the length first, as a long list would be gone through for each of its letters
        if letters.is_empty() || letters.len() > MAX_LETTERS || !are_letters(letters) {
            return None;
        }
        let mut stored = InlineList::new(0);
        stored.extend_from_slice(letters).ok()?;
        Some(Alphabet {
            letters: stored,
            column_of: columns_in(&stored),
        })
    }

    // The alphabet {a}.
    pub fn single() -> Alphabet
        ensures { letters_of result ≡ 1 ∷ [] }
    {
        Alphabet::new(&[1]).unwrap()
    }

    // How many columns there are: one for each letter, and one for blank.
    pub fn width(&self) -> u32
        ensures { result ≡ length (columns (letters_of self.now)) }
    {
        self.letters.len() as u32 + 1
    }

    // The letters, in order of writing.
    pub fn letters(&self) -> &[u8]
        ensures { result.now ≡ letters_of self.now }
    {
        self.letters.as_slice()
    }

    // The column of a symbol, or nothing where the symbol is not known.
    #[tactic(auto, using(crate::proofs::Places::column_told))]
    pub fn column(&self, code: u8) -> Option<u8>
        ensures column { result ≡ column_at (columns (letters_of self.now)) code }
        ensures within { IfSome result (λ k. k < length (columns (letters_of self.now))) }
    {
        self.column_of[code as usize]
    }
}
