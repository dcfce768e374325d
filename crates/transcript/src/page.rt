ghost use Rattle.std.specs.Prelude.{◌≡◌, ◌+◌, ◌≤◌, ◌++◌, length};
ghost use Rattle.bounded.specs.Inline.{items_of};
ghost use Rattle.transcript.specs.Page.{print_answer, print_after, too_short_number};

use bounded::inline::InlineList;
use itoa::{Buffer, Integer};

// A buffer is shorter than the text that it is to hold: so many bytes are needed.
#[derive(Clone, Copy, PartialEq, Eq, Debug, Drop)]
pub struct TooShort {
    pub needed: usize,
}

impl TooShort {
    // The refusal's number. No `From` tells more, as the type has one refusal only.
    pub fn number(self) -> u8
        ensures { result ≡ too_short_number }
    {
        21
    }
}

// Writes a text at the front of a buffer, and answers its length.
pub fn print(text: &[u8], buffer: &mut [u8]) -> Result<usize, TooShort>
    ensures answer { result ≡ print_answer text.now buffer.old }
    ensures after { buffer.new ≡ print_after text.now buffer.old }
{
    // By a test and not `get_mut`, after which no proof knows what the buffer holds, not even where it gave nothing.
    if buffer.len() < text.len() {
        return Err(TooShort { needed: text.len() });
    }
    buffer[..text.len()].copy_from_slice(text);
    Ok(text.len())
}

// Writes bytes behind a text that has room for them.
pub(crate) fn append<const N: usize>(text: &mut InlineList<u8, N>, bytes: &[u8])
    requires { length (items_of text.old) + length bytes.now ≤ N }
    ensures { items_of text.new ≡ items_of text.old ++ bytes.now }
{
    text.extend_from_slice(bytes).unwrap();
}

// Writes a number's decimal digits behind a text that has room for the longest of its type.
pub(crate) fn append_decimal<I: Integer, const N: usize>(text: &mut InlineList<u8, N>, number: I)
    requires { length (items_of text.old) + I.Integer.MAX_STR_LEN ≤ N }
    ensures text { items_of text.new ≡ items_of text.old ++ I.Integer.text number }
    ensures fits { length (I.Integer.text number) ≤ I.Integer.MAX_STR_LEN }
{
    let mut digits = Buffer::new();
    append(text, digits.format(number).as_bytes());
}
