ghost use Rattle.std.specs.Prelude.{◌≡◌, ◌+◌, ◌≤◌, ◌++◌, length};
ghost use Rattle.bounded.specs.Inline.{items_of};
ghost use Rattle.transcript.specs.Page.{print_answer, print_after};
ghost use Rattle.transcript.specs.Transcript.{tape_line, word_lines, transcript_of};
ghost use Rattle.transcript.specs.Word.{codes_in};

use crate::input::{source_text, word_text};
use crate::page::{TooShort, append, print};
use crate::show::{dense_display, sparse_display};
use crate::source::{bytes_fault_of, print_fault};
use crate::word::Word;
use bounded::inline::InlineList;

// How long a transcript may be.
pub const LONGEST: usize = 45;

// Writes into the output what the console prints of an input, and answers how many bytes that is.
pub fn transcript(input: &[u8], output: &mut [u8]) -> Result<usize, TooShort>
    ensures answer { result ≡ print_answer (transcript_of input.now) output.old }
    ensures after { output.new ≡ print_after (transcript_of input.now) output.old }
    ensures longest { length (transcript_of input.now) ≤ 45 }
{
    if let Some(fault) = bytes_fault_of(source_text(input)) {
        return print_fault(fault, output);
    }
    match Word::read(word_text(input)) {
        Some(word) => print(lines_of(&word).as_slice(), output),
        None => print(b"bad word\n", output),
    }
}

// A line for each implementation of the tape.
fn lines_of(word: &Word) -> InlineList<u8, LONGEST>
    ensures { items_of result ≡ word_lines (codes_in word.now) }
{
    let mut lines = InlineList::new(0);
    append_line(&mut lines, b"dense", &dense_display(word));
    append_line(&mut lines, b"sparse", &sparse_display(word));
    lines
}

// Writes a tape's line behind a text that has room for it.
fn append_line<const N: usize>(text: &mut InlineList<u8, N>, name: &[u8], shown: &[u8])
    requires { length (items_of text.old) + length (tape_line name.now shown.now) ≤ N }
    ensures { items_of text.new ≡ items_of text.old ++ tape_line name.now shown.now }
{
    append(text, name);
    append(text, b" ");
    append(text, shown);
    append(text, b"\n");
}
