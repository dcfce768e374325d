// One nonblank cell: where it is, and its code.
#[derive(Clone, Copy, PartialEq, Eq, Debug, Drop)]
pub struct NonblankCell {
    pub cell: u16,
    pub code: u8,
}
