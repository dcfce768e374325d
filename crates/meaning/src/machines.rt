use tape::kinds::Direction;

// What comes after a step of a machine: a number, or a verdict.
#[derive(Clone, Copy, PartialEq, Eq, Debug, Drop)]
pub enum Next {
    To(u32),
    Accept,
    Reject,
}

// What a machine does at a number and a symbol. Where nothing is written, the cell stays as it is.
#[derive(Clone, Copy, PartialEq, Eq, Debug, Drop)]
pub struct Action {
    pub write: Option<u8>,
    pub direction: Direction,
    pub next: Next,
}

// What a table has for a state and a symbol. An entry always writes, so it is no `Action`; one struct over the type of `write` would be
// no plainer, since each place that names one of the two would then name that type.
#[derive(Clone, Copy, PartialEq, Eq, Debug, Drop)]
pub struct Entry {
    pub write: u8,
    pub direction: Direction,
    pub next: Next,
}
