// The program that notes stand for, put together block by block.
ghost use Rattle.std.specs.Prelude.{◌≡◌, ◌&&◌, true, if◌then◌else◌, Some, None};
ghost use Rattle.events.specs.Notes.{program_noted};
ghost use Rattle.alphabet.specs.Columns.{letters_fit};
ghost use Rattle.program.specs.InRange.{in_range};
ghost use Rattle.program.specs.Built.{built, with_block, compiled_if};
ghost use Rattle.program.specs.Taken.{takes_block, takes_blocks, with_blocks};
ghost use Rattle.notes.specs.Noted.{notes_of};
ghost use Rattle.notes.specs.Settled.{kind_settled, kinds_settled};

use crate::kinds::{Module, Span};
use crate::notes::settling::{settle_arms, settle_basic};
use crate::notes::{Block, Notes, Row};
use alphabet::letters::Alphabet;
use program::builder::Builder;
use program::program::Program;

// One block more, or nothing where the builder refuses it.
fn push_block(
    builder: &mut Builder,
    block: &Block<Span>,
    modules: &[Module],
    source: &[u8],
) -> Option<()>
    ensures answer { result ≡ (if takes_block (built builder.old) (kind_settled source.now modules.now block.now) then Some tt else None) }
    ensures blocks { built builder.new ≡ (if takes_block (built builder.old) (kind_settled source.now modules.now block.now) then with_block (built builder.old) (kind_settled source.now modules.now block.now) else built builder.old) }
{
    match block {
        Row::Single(basic) => {
            let basic = settle_basic(*basic, modules, source);
            builder.push_basic(basic).ok()
        }
        Row::Switch(arms) => {
            let arms = settle_arms(arms, modules, source);
            builder.push_switch(arms.as_slice()).ok()
        }
    }
}

// These blocks more, or nothing where the builder refuses one.
fn push_blocks(
    builder: &mut Builder,
    rows: &[Block<Span>],
    modules: &[Module],
    source: &[u8],
) -> Option<()>
    ensures answer { result ≡ (if takes_blocks (built builder.old) (kinds_settled source.now modules.now rows.now) then Some tt else None) }
    ensures blocks { takes_blocks (built builder.old) (kinds_settled source.now modules.now rows.now) ≡ true → built builder.new ≡ with_blocks (built builder.old) (kinds_settled source.now modules.now rows.now) }
{
    for block in rows {
        push_block(builder, block, modules, source)?;
    }
    Some(())
}

impl<'n, 'm> Notes<'n, 'm> {
    // The program, or nothing where it is none that can be stored.
    pub fn program(&self, source: &[u8]) -> Option<Program>
        ensures { compiled_if result ≡ (if letters_fit (notes_of source.now self.now).letters && in_range (program_noted (notes_of source.now self.now)) then Some (program_noted (notes_of source.now self.now)) else None) }
    {
        let alphabet = Alphabet::new(self.letters.as_slice())?;
        let mut builder = Builder::new(alphabet);
        push_blocks(
            &mut builder,
            self.rows.as_slice(),
            self.modules.before(),
            source,
        )?;
        builder.finish()
    }
}
