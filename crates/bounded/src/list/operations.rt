ghost use Rattle.std.specs.Prelude.{◌≡◌, length};
ghost use Rattle.std.specs.List.{slice_get};
ghost use Rattle.bounded.specs.Held.{Becomes, held, emptied, all, count, next_of, previous_of, room_answer, pushed, inserted, deleted, replaced, forwarded, backed};

use crate::list::{BoundedList, Full};

impl<'a, T: Copy> BoundedList<'a, T> {
    // An empty list, with one record of room for each record of the memory.
    pub fn new(memory: &'a mut [T]) -> BoundedList<'a, T>
        ensures held { held result ≡ emptied (length memory.old) }
        ensures lent { result.records.ghost_name ≡ memory.entry.ghost_name }
    {
        let back = memory.len();
        BoundedList {
            records: memory,
            front: 0,
            back,
        }
    }

    // Gives the memory back, as it is. Each type that is lent memory has such a call of its own: a trait would leave the same line to each.
    pub fn into_memory(self) -> &'a mut [T]
        ensures memory { result.now ≡ self.entry.records.now }
        ensures lent { result.ghost_name ≡ self.entry.records.ghost_name }
    {
        let BoundedList { records, .. } = self;
        records
    }

    // How many records there may be.
    pub fn capacity(&self) -> usize
        ensures { result ≡ (held self.now).capacity }
    {
        self.records.len()
    }

    // How many records there are.
    pub fn len(&self) -> usize
        ensures { result ≡ count (held self.now) }
    {
        self.cursor() + self.after().len()
    }

    // How many records stand before the cursor.
    pub fn cursor(&self) -> usize
        ensures { result ≡ length (held self.now).before }
    {
        self.before().len()
    }

    // The record at an index, counted from 0 over all records in their order.
    pub fn get(&self, index: usize) -> Option<T>
        ensures { result ≡ slice_get (all (held self.now)) index }
    {
        if index < self.front {
            self.before().get(index).copied()
        } else {
            self.after().get(index - self.front).copied()
        }
    }

    // The records before the cursor.
    pub fn before(&self) -> &[T]
        ensures { result.now ≡ (held self.now).before }
    {
        &self.records[..self.front]
    }

    // The records after the cursor.
    pub fn after(&self) -> &[T]
        ensures { result.now ≡ (held self.now).after }
    {
        &self.records[self.back..]
    }

    // The record right after the cursor.
    pub fn next(&self) -> Option<T>
        ensures { result ≡ next_of (held self.now) }
    {
        self.after().first().copied()
    }

    // The record right before the cursor.
    pub fn previous(&self) -> Option<T>
        ensures { result ≡ previous_of (held self.now) }
    {
        self.before().last().copied()
    }

    // Takes all records out.
    pub fn clear(&mut self)
        ensures { Becomes self.old self.new (emptied (held self.old).capacity) }
    {
        self.front = 0;
        self.back = self.capacity();
    }

    // One more record, right before the cursor.
    pub fn push(&mut self, record: T) -> Result<(), Full>
        ensures answer { result ≡ room_answer (held self.old) }
        ensures after { Becomes self.old self.new (pushed (held self.old) «record») }
    {
        if self.front == self.back {
            return Err(Full);
        }
        self.records[self.front] = record;
        self.front += 1;
        Ok(())
    }

    // One more record, right after the cursor.
    pub fn insert(&mut self, record: T) -> Result<(), Full>
        ensures answer { result ≡ room_answer (held self.old) }
        ensures after { Becomes self.old self.new (inserted (held self.old) «record») }
    {
        if self.front == self.back {
            return Err(Full);
        }
        let last_free = self.back - 1;
        self.records[last_free] = record;
        self.back = last_free;
        Ok(())
    }

    // Takes the record right after the cursor out, and answers it.
    pub fn delete(&mut self) -> Option<T>
        ensures answer { result ≡ next_of (held self.old) }
        ensures after { Becomes self.old self.new (deleted (held self.old)) }
    {
        let deleted = self.next()?;
        self.back += 1;
        Some(deleted)
    }

    // Writes over the record right after the cursor, and answers the old one.
    pub fn replace(&mut self, record: T) -> Option<T>
        ensures answer { result ≡ next_of (held self.old) }
        ensures after { Becomes self.old self.new (replaced (held self.old) «record») }
    {
        let replaced = self.next()?;
        self.records[self.back] = record;
        Some(replaced)
    }

    // Moves the cursor on over the next record, and answers it.
    pub fn forward(&mut self) -> Option<T>
        ensures answer { result ≡ next_of (held self.old) }
        ensures after { Becomes self.old self.new (forwarded (held self.old)) }
    {
        let next = self.next()?;
        self.records[self.front] = next;
        self.front += 1;
        self.back += 1;
        Some(next)
    }

    // Moves the cursor back over the previous record, and answers it.
    pub fn backward(&mut self) -> Option<T>
        ensures answer { result ≡ previous_of (held self.old) }
        ensures after { Becomes self.old self.new (backed (held self.old)) }
    {
        let previous = self.previous()?;
        self.front -= 1;
        self.back -= 1;
        self.records[self.back] = previous;
        Some(previous)
    }
}
