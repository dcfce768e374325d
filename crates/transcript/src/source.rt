ghost use Rattle.std.specs.Prelude.{◌≡◌, ◌≤◌, length, Some, Err};
ghost use Rattle.bounded.specs.Inline.{items_of};
ghost use Rattle.meaning.specs.declared.faults.Fault.{Fault as Told};
ghost use Rattle.meaning.specs.Outcome.{outcome};
ghost use Rattle.transcript.specs.Page.{print_answer, print_after};
ghost use Rattle.transcript.specs.Source.{bytes_fault, fault_line};

use crate::page::{TooShort, append, append_decimal, print};
use bounded::inline::InlineList;
use compiler::readable;
use meaning::faults::Fault;

// How long a source may be.
pub use compiler::LONGEST_SOURCE;

// How long a fault's line may be.
const LONGEST_LINE: usize = 36;

// The fault of a source that is too long, or that has a byte of no word and no separator.
pub fn bytes_fault_of(source: &[u8]) -> Option<Fault>
    ensures fault { result ≡ bytes_fault source.now }
    ensures told { (f : Told) → result ≡ Some f → outcome source.now ≡ Err f }
{
    readable(source).err()
}

// Writes the line that tells a fault into a buffer, and answers its length.
// No `impl Display` serves here: what `write!` wrote is known only where it answers `Ok`, which no proof can say beforehand.
pub fn print_fault(fault: Fault, buffer: &mut [u8]) -> Result<usize, TooShort>
    ensures answer { result ≡ print_answer (fault_line fault) buffer.old }
    ensures after { buffer.new ≡ print_after (fault_line fault) buffer.old }
    ensures short { length (fault_line fault) ≤ 36 }
{
    print(line_of(fault).as_slice(), buffer)
}

// The line that tells a fault.
fn line_of(fault: Fault) -> InlineList<u8, LONGEST_LINE>
    ensures { items_of result ≡ fault_line fault }
{
    let mut line = InlineList::new(0);
    append(&mut line, b"refused ");
    append_decimal(&mut line, fault.cause.number());
    append(&mut line, b" at ");
    append_decimal(&mut line, fault.place);
    append(&mut line, b"\n");
    line
}
