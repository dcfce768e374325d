use tape::kinds::Direction;

// What comes after a basic block; `G` says where a goto leads: by a number, or still by the name as it is written.
#[derive(Clone, Copy, Drop)]
pub enum Then<G> {
    // the same switch, in a while case
    Again,
    Accept,
    Reject,
    Goto(G),
    // the next block of the same body, by its number
    Next(u32),
    // the body has no next block
    End,
}

// A basic block, 12 bytes where gotos are numbers. A command that the source does not write is missing here too.
#[derive(Clone, Copy, Drop)]
pub struct Basic<G> {
    pub write: Option<u8>,
    pub movement: Option<Direction>,
    pub then: Then<G>,
}

// What a numbered block is: a basic block, or a switch with a basic block for each symbol.
#[derive(Clone, Copy, Drop)]
pub enum Shape {
    Single,
    Switch,
}

// An arm of a switch: a symbol code and its basic block.
#[derive(Clone, Copy, Drop)]
pub struct Arm<G> {
    pub code: u8,
    pub basic: Basic<G>,
}

// What stands in a slot that no block uses.
pub const UNUSED: Basic<u32> = Basic {
    write: None,
    movement: None,
    then: Then::End,
};
