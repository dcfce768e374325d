ghost use Rattle.std.specs.Prelude.{◌≡◌, true, [], ◌∷◌};
ghost use Rattle.bounded.specs.Held.{held};
ghost use Rattle.sparse.specs.Records.{InOrder, code_at, stands};
ghost use Rattle.sparse.specs.Sparse.{sparse, blank_tape, sparse_fits, sparse_check, sparse_sound};

use crate::record::NonblankCell;
use crate::sparse::SparseTape;
use bounded::list::BoundedList;
use tape::kinds::{Direction, TapeRefusal};
use tape::reach::reach;
use tape::symbol::{BLANK, HIGHEST_CODE};
use tape::tape::{MAX_SIZE, Tape};

impl<'b, 'a> SparseTape<'b, 'a> {
    // May a tape of this size be made with these records, and with this head?
    pub fn check(
        records: &BoundedList<NonblankCell>,
        size: usize,
        head: usize,
    ) -> Result<(), TapeRefusal>
        ensures { result ≡ sparse_check (held records.now).capacity size head }
    {
        if head < size && size <= MAX_SIZE && records.capacity() <= size {
            Ok(())
        } else {
            Err(TapeRefusal::Shape)
        }
    }

    // A blank tape of what passed the check; what the list held is taken out.
    pub fn new(
        records: &'b mut BoundedList<'a, NonblankCell>,
        size: usize,
        head: usize,
    ) -> SparseTape<'b, 'a>
        requires { sparse_fits (held records.old).capacity size head ≡ true }
        ensures meaning { sparse result ≡ blank_tape (held records.old).capacity size head }
        ensures lent { result.records.ghost_name ≡ records.entry.ghost_name }
        ensures memory { result.records.now.records.ghost_name ≡ records.old.records.ghost_name }
    {
        records.clear();
        SparseTape {
            records,
            size,
            head,
        }
    }

    // Gives the list back, with its records as they are. No trait has this call, since it would leave the same line to each type.
    pub fn into_records(self) -> &'b mut BoundedList<'a, NonblankCell>
        ensures records { result.now ≡ self.entry.records.now }
        ensures lent { result.ghost_name ≡ self.entry.records.ghost_name }
    {
        let SparseTape { records, .. } = self;
        records
    }
}

impl<'b, 'a> Tape for SparseTape<'b, 'a> {
    ghost meaning = { sparse };

    ghost sound = { sparse_sound };

    ghost lent = { λ t. t.records.ghost_name ∷ t.records.now.records.ghost_name ∷ [] };

    fn look(&self, distance: i32) -> Option<u8> {
        let cell = reach(self.size, self.head, distance)?;
        if cell < self.head {
            Some(find(self.records.before(), cell))
        } else {
            Some(find(self.records.after(), cell))
        }
    }

    fn put(&mut self, code: u8) -> Result<(), TapeRefusal> {
        if code > HIGHEST_CODE {
            return Err(TapeRefusal::Code);
        }
        let record = NonblankCell {
            cell: self.head as u16,
            code,
        };
        match (is_at(self.records.next(), self.head), code) {
            (true, BLANK) => {
                self.records.delete();
            }
            (true, _) => {
                self.records.replace(record);
            }
            (false, BLANK) => {}
            (false, _) => self
                .records
                .insert(record)
                .map_err(|_| TapeRefusal::Capacity)?,
        }
        Ok(())
    }

    fn shift(&mut self, direction: Direction) -> Result<(), TapeRefusal> {
        let from = self.head;
        self.head = reach(self.size, from, direction.step()).ok_or(TapeRefusal::Edge)?;
        match direction {
            Direction::Left => {
                if is_at(self.records.previous(), self.head) {
                    self.records.backward();
                }
            }
            Direction::Right => {
                if is_at(self.records.next(), from) {
                    self.records.forward();
                }
            }
        }
        Ok(())
    }
}

// Is this the record of the cell?
fn is_at(record: Option<NonblankCell>, cell: usize) -> bool
    ensures { result ≡ stands «record» cell }
{
    record.is_some_and(|nonblank| nonblank.cell as usize == cell)
}

// The code of a cell by records in the order of their cells: blank where it has none. It goes one by one from the front,
// and stops at the cell: at the head it looks at one record, where a binary search would look at several.
fn find(records: &[NonblankCell], cell: usize) -> u8
    requires { InOrder records.now }
    ensures { result ≡ code_at records.now cell }
{
    records
        .iter()
        .find(|record| record.cell as usize >= cell)
        .filter(|record| record.cell as usize == cell)
        .map_or(BLANK, |record| record.code)
}
