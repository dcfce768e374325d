// A tape that keeps a record for each nonblank cell only.
ghost use Rattle.bounded.specs.Held.{held};
ghost use Rattle.sparse.specs.Records.{Kept, kept_prop};

use crate::record::NonblankCell;
use bounded::list::BoundedList;

pub mod operations;

// The records stand in the order of their cells, in a list: those of cells left of the head before
// the list's cursor, those at the head and right of it after. So a put and a shift touch only the
// records next to the cursor. The list is lent, and not held by value, since who makes a tape may
// have no more than a `&mut` to one.
#[derive(Drop)]
pub struct SparseTape<'b, 'a> {
    records: &'b mut BoundedList<'a, NonblankCell>,
    size: usize,
    head: usize,
    ghost kept: { Kept size head (held records.now) } by { kept_prop size head (held records.now) },
}
