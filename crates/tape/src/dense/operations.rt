ghost use Rattle.std.specs.Prelude.{◌≡◌, true, [], ◌∷◌, pos, ◌+ℤ◌};
ghost use Rattle.tape.specs.Meaning.{all_codes, reached, step_of};
ghost use Rattle.tape.specs.Dense.{of_cells, dense, dense_fits, dense_check, dense_sound};

use crate::dense::DenseTape;
use crate::kinds::{Direction, TapeRefusal};
use crate::reach::reach;
use crate::symbol::HIGHEST_CODE;
use crate::tape::{MAX_SIZE, Tape};

impl<'a> DenseTape<'a> {
    // May a tape be made of these cells, with this head?
    pub fn check(cells: &[u8], head: usize) -> Result<(), TapeRefusal>
        ensures { result ≡ dense_check cells.now head }
    {
        if head < cells.len() && cells.len() <= MAX_SIZE && are_codes(cells) {
            Ok(())
        } else {
            Err(TapeRefusal::Shape)
        }
    }

    // A tape of cells and a head that passed the check.
    pub fn new(cells: &'a mut [u8], head: usize) -> DenseTape<'a>
        requires { dense_fits cells.old head ≡ true }
        ensures meaning { dense result ≡ of_cells cells.old head }
        ensures lent { result.cells.ghost_name ≡ cells.entry.ghost_name }
    {
        DenseTape { cells, head }
    }

    // Gives the memory back, with the cells as they are. No trait has this call, since it would leave the same line to each type.
    pub fn into_memory(self) -> &'a mut [u8]
        ensures memory { result.now ≡ self.entry.cells.now }
        ensures lent { result.ghost_name ≡ self.entry.cells.ghost_name }
    {
        let DenseTape { cells, .. } = self;
        cells
    }
}

// Is each of these a symbol code?
fn are_codes(cells: &[u8]) -> bool
    ensures { result ≡ all_codes cells.now }
{
    cells.iter().all(|code| *code <= HIGHEST_CODE)
}

// The cell next to the head that way, or nothing where there is none. It is what `reach` answers at the distance of one step; `reach` takes
// longer, as it goes by the sign of a distance.
fn beside(size: usize, head: usize, direction: Direction) -> Option<usize>
    ensures { result ≡ reached size (pos head +ℤ step_of direction) }
{
    let cell = match direction {
        Direction::Left => head.checked_sub(1)?,
        Direction::Right => head.checked_add(1)?,
    };
    if cell < size { Some(cell) } else { None }
}

impl<'a> Tape for DenseTape<'a> {
    ghost meaning = { dense };

    ghost sound = { dense_sound };

    ghost lent = { λ t. t.cells.ghost_name ∷ [] };

    fn look(&self, distance: i32) -> Option<u8> {
        let cell = reach(self.cells.len(), self.head, distance)?;
        Some(self.cells[cell])
    }

    fn put(&mut self, code: u8) -> Result<(), TapeRefusal> {
        if code > HIGHEST_CODE {
            return Err(TapeRefusal::Code);
        }
        self.cells[self.head] = code;
        Ok(())
    }

    fn shift(&mut self, direction: Direction) -> Result<(), TapeRefusal> {
        self.head = beside(self.cells.len(), self.head, direction).ok_or(TapeRefusal::Edge)?;
        Ok(())
    }
}
