ghost use Rattle.std.specs.Prelude.{◌≡◌, ◌≤◌, [], length};
ghost use Rattle.bounded.specs.Held.{held};
ghost use Rattle.bounded.specs.Inline.{items_of};

use crate::kinds::{Current, Module, SYMBOLS, Span};
use alphabet::letters::operations::MAX_LETTERS;
use bounded::inline::InlineList;
use bounded::list::BoundedList;
use meaning::faults::Fault;
use program::blocks::{Arm, Basic};

pub mod blocks;
pub mod building;
pub mod cases;
pub mod letters;
pub mod names;
pub mod operations;
pub mod rows;
pub mod settling;

// A numbered block: a basic block, or a switch with its arms.
#[derive(Clone, Copy, Drop)]
pub enum Row<B, A> {
    Single(B),
    Switch(A),
}

// A numbered block, where `G` says where a goto leads.
pub type Block<G> = Row<Basic<G>, InlineList<Arm<G>, SYMBOLS>>;

// The blocks that are within the limits, by their numbers.
pub type Blocks<G> = InlineList<Block<G>, 128>;

// The letters of the alphabet; the modules and the gotos, in lists that are lent; the blocks within the limits; the lowest violation of a rule
// so far; the basic block under construction.
#[derive(Drop)]
pub struct Notes<'n, 'm> {
    modules: &'n mut BoundedList<'m, Module>,
    gotos: &'n mut BoundedList<'m, Span>,
    letters: InlineList<u8, MAX_LETTERS>,
    // how many columns there are, with every letter counted
    width: u32,
    // how many blocks have begun
    count: u32,
    // those of them that are within the limits
    rows: Blocks<Span>,
    violation: Option<Fault>,
    current: Current,
    ghost module_end: { (held modules.now).after ≡ [] },
    ghost goto_end: { (held gotos.now).after ≡ [] },
    ghost begun: { length (items_of rows) ≤ count },
}
