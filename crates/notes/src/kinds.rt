ghost use Rattle.std.specs.Prelude.{◌≡◌};
ghost use Rattle.notes.specs.Kinds.{owner_of, number_of};

use bounded::inline::InlineList;
use program::blocks;
use tape::kinds::Direction;

// A symbol by its code, with its place.
#[derive(Clone, Copy, Drop)]
pub struct Symbol {
    pub code: u8,
    pub place: usize,
}

// A stretch of the source. Two numbers and no slice, so that a list of them may outlive the source, and serve the next one.
#[derive(Clone, Copy, Drop)]
pub struct Span {
    pub start: usize,
    pub length: usize,
}

// A module: its name, and the number of its first block.
#[derive(Clone, Copy, Drop)]
pub struct Module {
    pub name: Span,
    pub first: u32,
}

// What comes after a basic block, as the source says it: a goto leads to a name.
pub type Then = blocks::Then<Span>;

// A basic block, as the source says it.
pub type Basic = blocks::Basic<Span>;

// A symbol of a switch, and the basic block that it leads to.
pub type Arm = blocks::Arm<Span>;

// How many symbols there are: the letters, and blank.
pub const SYMBOLS: usize = 37;

// The symbols of a case, by their codes.
pub type Codes = InlineList<u8, SYMBOLS>;

// Whose basic block is under construction: that of a number, or that of these symbols in the switch of a number. Two kinds of owner, of which
// an Option of the symbols would not tell.
#[derive(Clone, Copy, Drop)]
pub enum Owner {
    Numbered(u32),
    Arms(u32, Codes),
}

impl Owner {
    // The number of the block that it stands in.
    pub(crate) fn number(self) -> u32
        ensures { result ≡ number_of (owner_of self) }
    {
        match self {
            Owner::Numbered(number) | Owner::Arms(number, _) => number,
        }
    }
}

// The basic block under construction: whose it is, and what it writes and how it moves so far.
#[derive(Clone, Copy, Drop)]
pub struct Current {
    pub owner: Owner,
    pub write: Option<u8>,
    pub movement: Option<Direction>,
}
