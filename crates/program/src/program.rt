// A program as it is stored.
ghost use Rattle.std.specs.Prelude.{◌≡◌, true};
ghost use Rattle.program.specs.Place.{stored};
ghost use Rattle.program.specs.InRange.{in_range};

use crate::store::Store;

pub mod operations;

// At least one block. What blocks write are symbols of the alphabet, and where they lead are numbers of the program. 14,008 bytes.
#[derive(Drop)]
pub struct Program {
    pub(crate) store: Store,
    ghost ranged: { in_range (stored store) ≡ true },
}
