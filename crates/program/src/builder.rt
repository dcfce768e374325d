// A program that is being put together.
use crate::store::Store;

pub mod operations;

// The alphabet, and the blocks from 0 on. 14,008 bytes.
#[derive(Drop)]
pub struct Builder {
    store: Store,
}

// Why a block is refused.
#[derive(Clone, Copy, PartialEq, Eq, Debug, Drop)]
pub enum BuildRefusal {
    // no number is left, or no row of slots
    NoRoom,
    // the arms of a switch do not have each column exactly once
    NotWhole,
}
