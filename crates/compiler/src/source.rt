// From a source to its program.
ghost use Rattle.std.specs.Prelude.{◌≡◌};
ghost use Rattle.bounded.specs.Held.{held};
ghost use Rattle.events.specs.Notes.{most_names, most_gotos};
ghost use Rattle.meaning.specs.Outcome.{outcome, compile_answer, compile_after};
ghost use Rattle.program.specs.Stored.{compiled};
ghost use Rattle.compiler.specs.Compiling.{bytes_judged, ReadableOr, ReadAs, Compiles};

use crate::parser::Parser;
use bounded::list::BoundedList;
use meaning::faults::{Cause, Fault};
use notes::kinds::{Module, Span};
use program::program::Program;
use words::first_foreign;

// How long a source may be.
pub const LONGEST_SOURCE: usize = 60_000;

// How many modules and gotos a source of the greatest length can have.
const MOST_MODULES: usize = 3_749;

const MOST_GOTOS: usize = 5_000;

// The fault of a source that is too long, or that has a byte of no word and no separator.
pub fn readable(source: &[u8]) -> Result<(), Fault>
    ensures answer { result ≡ bytes_judged source.now }
    ensures told { ReadableOr result source.now }
{
    if source.len() > LONGEST_SOURCE {
        return Err(Fault {
            cause: Cause::Length,
            place: LONGEST_SOURCE,
        });
    }
    match first_foreign(source) {
        Some(place) => Err(Fault {
            cause: Cause::Byte,
            place,
        }),
        None => Ok(()),
    }
}

// The program of a source, by way of lists with room for all names and gotos.
fn read_in<'n, 'm>(
    source: &[u8],
    modules: &'n mut BoundedList<'m, Module>,
    gotos: &'n mut BoundedList<'m, Span>,
) -> Result<Program, Fault>
    requires modules { (held modules.now).capacity ≡ most_names }
    requires gotos { (held gotos.now).capacity ≡ most_gotos }
    ensures { ReadAs result source.now }
{
    readable(source)?;
    Parser::new(source, modules, gotos).read()
}

// The program of a source. The lists are memory of this call: 3,749 modules of 24 bytes and 5,000 gotos of 16, 169,976 bytes.
fn read(source: &[u8]) -> Result<Program, Fault>
    ensures { ReadAs result source.now }
{
    let name = Span {
        start: 0,
        length: 0,
    };
    let mut modules = [Module { name, first: 0 }; MOST_MODULES];
    let mut gotos = [name; MOST_GOTOS];
    let mut modules = BoundedList::new(&mut modules);
    let mut gotos = BoundedList::new(&mut gotos);
    read_in(source, &mut modules, &mut gotos)
}

// Stores the program of a source; a source that is none leaves what was stored, and its fault is answered.
pub fn compile(program: &mut Program, source: &[u8]) -> Result<(), Fault>
    ensures answer { result ≡ compile_answer (outcome source.now) }
    ensures after { compiled program.new ≡ compile_after (compiled program.old) (outcome source.now) }
    ensures subject { Compiles source.now result (compiled program.old) (compiled program.new) }
{
    *program = read(source)?;
    Ok(())
}
