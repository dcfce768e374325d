// A bounded list with a cursor, for records of any kind, in memory that is lent to it.
ghost use Rattle.std.specs.Prelude.{◌≤◌, length};

pub mod operations;

// The records before the cursor stand at the front of the memory, those after it at the
// end, the free ones between; so an insertion or a deletion at the cursor moves no record.
#[derive(Drop)]
pub struct BoundedList<'a, T> {
    records: &'a mut [T],
    // how many records stand before the cursor
    front: usize,
    // where the records after the cursor begin
    back: usize,
    ghost apart: { front ≤ back },
    ghost inside: { back ≤ length records.now },
}

// No record is free.
#[derive(Clone, Copy, PartialEq, Eq, Debug, Drop)]
pub struct Full;
