ghost use Rattle.std.specs.Prelude.{◌≡◌, ◌==◌};
ghost use Rattle.std.specs.List.{after_first, before_first, position};
ghost use Rattle.transcript.specs.Input.{source_text, word_text};

// Where a byte first stands.
fn find(text: &[u8], byte: u8) -> Option<usize>
    ensures { result ≡ position (λ b. b == byte) text.now }
{
    text.iter().position(|b| *b == byte)
}

// What stands before the first such byte and what behind it, or all and nothing where there is none.
fn split_at_first(text: &[u8], byte: u8) -> (&[u8], &[u8])
    ensures before { result.0.now ≡ before_first (λ b. b == byte) text.now }
    ensures behind { result.1.now ≡ after_first (λ b. b == byte) text.now }
{
    match find(text, byte) {
        Some(place) => (&text[..place], &text[place + 1..]),
        None => (text, &[]),
    }
}

// The source: up to the first `%` or the end.
pub fn source_text(input: &[u8]) -> &[u8]
    ensures { result.now ≡ source_text input.now }
{
    split_at_first(input, b'%').0
}

// The word's text: behind the first `%`, up to LF or the end.
pub fn word_text(input: &[u8]) -> &[u8]
    ensures { result.now ≡ word_text input.now }
{
    let (_, rest) = split_at_first(input, b'%');
    split_at_first(rest, b'\n').0
}
