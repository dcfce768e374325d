ghost use Rattle.std.specs.Prelude.{◌≡◌, ◌≤◌, length};
ghost use Rattle.std.specs.Option.{option_map};
ghost use Rattle.program.specs.Store.{basic_of, place_in};
ghost use Rattle.program.specs.Place.{columns_of, count_of, stored, basic_at};

use crate::blocks::{Basic, Shape};
use crate::store::Store;

// Which slot of its row a block gives at a column.
fn slot_in(shape: Shape, column: u8) -> usize
    ensures { result ≡ place_in shape column }
{
    match shape {
        Shape::Single => 0,
        Shape::Switch => column as usize,
    }
}

impl Store {
    // How many numbers there are.
    pub(crate) fn count(&self) -> usize
        ensures number { result ≡ count_of self.now }
        ensures most { result ≤ 128 }
    {
        self.shapes.len()
    }

    // How many slots a row has.
    pub(crate) fn width(&self) -> usize
        ensures number { result ≡ length (columns_of self.now) }
        ensures most { result ≤ 37 }
    {
        self.alphabet.width() as usize
    }

    // The basic block that the block `number` gives at a symbol, or nothing where there is no such number or symbol.
    #[tactic(auto, using(crate::proofs::Found::finding))]
    pub(crate) fn basic(&self, number: u32, code: u8) -> Option<Basic<u32>>
        ensures { option_map basic_of result ≡ basic_at (stored self.now) number code }
    {
        let shape = *self.shapes.as_slice().get(number as usize)?;
        let column = self.alphabet.column(code)?;
        let base = number as usize * self.width();
        Some(self.slots[base + slot_in(shape, column)])
    }
}
