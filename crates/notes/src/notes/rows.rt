// The blocks of notes, one by one.
ghost use Rattle.std.specs.Prelude.{◌≡◌, [], length};
ghost use Rattle.bounded.specs.Inline.{items_of};
ghost use Rattle.words.specs.Bytes.{Text};
ghost use Rattle.meaning.specs.Blocks as meant;
ghost use Rattle.draft.specs.Building.{unfilled};
ghost use Rattle.events.specs.Notes.{with_arms, filled};
ghost use Rattle.program.specs.Store.{basic_as};
ghost use Rattle.notes.specs.Kinds.{owner_of};
ghost use Rattle.notes.specs.Noted.{kind_as, kinds_as, kind_filled};

use crate::kinds::Owner;
use crate::notes::{Block, Blocks, Row};
use bounded::inline::InlineList;
use program::blocks::{Arm, Basic, Then};

// A basic block with nothing in it.
fn empty<G>() -> Basic<G>
    ensures { (target : G → Text) → basic_as target result ≡ record { write = None; move = None; then = meant.end } }
{
    Basic {
        write: None,
        movement: None,
        then: Then::End,
    }
}

// A basic block that is not filled yet.
pub(super) fn unfilled<G: Copy>() -> Block<G>
    ensures { (target : G → Text) → kind_as target result ≡ unfilled }
{
    Row::Single(empty())
}

// A switch with no arm.
pub(super) fn switch<G: Copy + Drop>() -> Block<G>
    ensures { (target : G → Text) → kind_as target result ≡ meant.switch [] }
{
    Row::Switch(InlineList::new(Arm {
        code: 0,
        basic: empty(),
    }))
}

// With an arm more for each of these symbols, if it is a switch that has room.
fn with_arms<G: Copy + Drop>(block: Block<G>, codes: &[u8], basic: Basic<G>) -> Block<G>
    ensures { (target : G → Text) → kind_as target result ≡ with_arms codes.now (basic_as target «basic») (kind_as target block) }
{
    let Row::Switch(mut arms) = block else {
        return block;
    };
    for code in codes {
        let _ = arms.push(Arm { code: *code, basic });
    }
    Row::Switch(arms)
}

// With the basic block of this owner, which stands in it.
fn filled<G: Copy + Drop>(block: Block<G>, owner: Owner, basic: Basic<G>) -> Block<G>
    ensures { (target : G → Text) → kind_as target result ≡ kind_filled (owner_of owner) (basic_as target «basic») (kind_as target block) }
{
    match owner {
        Owner::Numbered(_) => Row::Single(basic),
        Owner::Arms(_, codes) => with_arms(block, codes.as_slice(), basic),
    }
}

// The owner gets its basic block, if its number is within the limits.
pub(super) fn fill<G: Copy + Drop>(rows: &mut Blocks<G>, owner: Owner, basic: Basic<G>)
    ensures length { length (items_of rows.new) ≡ length (items_of rows.old) }
    ensures blocks { (target : G → Text) → kinds_as target (items_of rows.new) ≡ filled (owner_of owner) (basic_as target «basic») (kinds_as target (items_of rows.old)) }
{
    let number = owner.number() as usize;
    if let Some(block) = rows.as_slice().get(number) {
        let block = filled(*block, owner, basic);
        let _ = rows.replace(number, block);
    }
}
