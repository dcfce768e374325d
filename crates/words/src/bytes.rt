// The classes of the bytes of a source.
ghost use Rattle.std.specs.Prelude.{◌≡◌};
ghost use Rattle.words.specs.Bytes.{class, first_foreign, FirstForeign};

// What a byte is to the word reader.
#[derive(Clone, Copy, Debug, PartialEq, Eq, Drop)]
pub enum Class {
    // A letter or a digit, which a word is made of.
    Part,
    // A word of its own.
    Mark,
    Separator,
    // A byte that no source may hold.
    Foreign,
}

// The class of a byte.
pub fn classify(byte: u8) -> Class
    ensures { result ≡ class byte }
{
    match byte {
        b'a'..=b'z' | b'A'..=b'Z' | b'0'..=b'9' => Class::Part,
        b'{' | b'}' | b',' | b'=' => Class::Mark,
        b' ' | b'\t' | b'\r' | b'\n' => Class::Separator,
        _ => Class::Foreign,
    }
}

// The place of the first foreign byte, if there is one.
pub fn first_foreign(source: &[u8]) -> Option<usize>
    ensures place { result ≡ first_foreign source.now }
    ensures law { FirstForeign source.now result }
{
    source
        .iter()
        .position(|byte| classify(*byte) == Class::Foreign)
}
