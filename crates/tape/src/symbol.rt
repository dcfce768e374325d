// Symbols as codes: 0 for blank, 1 to 26 for a to z, 27 to 36 for 0 to 9.
ghost use Rattle.std.specs.Prelude.{◌≡◌, ℕ, ◌↔◌, Some};
ghost use Rattle.tape.specs.Symbols.{letter_code, code_letter, cell_code};

pub const BLANK: u8 = 0;

pub const HIGHEST_CODE: u8 = 36;

// The byte that shows and writes a blank cell.
pub const BLANK_BYTE: u8 = b'_';

// The code of a letter, or nothing where the byte is no letter.
pub fn code_of(byte: u8) -> Option<u8>
    ensures code { result ≡ letter_code byte }
    ensures back { (c : ℕ) → (result ≡ Some c) ↔ (code_letter c ≡ Some byte) }
{
    match byte {
        b'a'..=b'z' => Some(byte - b'a' + 1),
        b'0'..=b'9' => Some(byte - b'0' + 27),
        _ => None,
    }
}

// The letter with this code, or nothing where the code is blank's or none.
pub fn letter_of(code: u8) -> Option<u8>
    ensures letter { result ≡ code_letter code }
    ensures back { (b : ℕ) → (result ≡ Some b) ↔ (letter_code b ≡ Some code) }
{
    match code {
        1..=26 => Some(code - 1 + b'a'),
        27..=36 => Some(code - 27 + b'0'),
        _ => None,
    }
}

// The code of a cell as it is written in text: a letter, or `_` for blank.
pub fn cell_code_of(byte: u8) -> Option<u8>
    ensures { result ≡ cell_code byte }
{
    if byte == BLANK_BYTE {
        Some(BLANK)
    } else {
        code_of(byte)
    }
}
