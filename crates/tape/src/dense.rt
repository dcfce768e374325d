// A tape with one byte a cell.
ghost use Rattle.std.specs.Prelude.{◌≡◌, ◌<◌, ◌≤◌, true, length};
ghost use Rattle.tape.specs.Meaning.{all_codes};

pub mod operations;

// The cells are memory that is lent; each may be nonblank.
#[derive(Drop)]
pub struct DenseTape<'a> {
    cells: &'a mut [u8],
    head: usize,
    ghost here: { head < length cells.now },
    ghost most: { length cells.now ≤ 4096 },
    ghost codes: { all_codes cells.now ≡ true },
}
