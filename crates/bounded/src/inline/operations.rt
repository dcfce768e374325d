ghost use Rattle.std.specs.Prelude.{◌≡◌, [], ◌∷◌, length, slice_set};
ghost use Rattle.std.specs.List.{slice_get};
ghost use Rattle.bounded.specs.Inline.{items_of, space_answer, extended};

use crate::inline::InlineList;
use crate::list::Full;

impl<T: Copy, const N: usize> InlineList<T, N> {
    // An empty list; `free` fills the array behind it.
    pub fn new(free: T) -> InlineList<T, N>
        ensures { items_of result ≡ [] }
    {
        InlineList {
            items: [free; N],
            count: 0,
        }
    }

    // The items, in order.
    pub fn as_slice(&self) -> &[T]
        ensures { result.now ≡ items_of self.now }
    {
        let items: &[T] = &self.items;
        &items[..self.count]
    }

    // How many items there are.
    pub fn len(&self) -> usize
        ensures { result ≡ length (items_of self.now) }
    {
        self.as_slice().len()
    }

    // One more item at the end; a full list stays as it is.
    pub fn push(&mut self, item: T) -> Result<(), Full>
        ensures answer { result ≡ space_answer N (items_of self.old) 1 }
        ensures items { items_of self.new ≡ extended N (items_of self.old) («item» ∷ []) }
    {
        if self.count >= N {
            return Err(Full);
        }
        self.items[self.count] = item;
        self.count += 1;
        Ok(())
    }

    // These items more at the end; where not all of them have space, the list stays as it is.
    pub fn extend_from_slice(&mut self, more: &[T]) -> Result<(), Full>
        ensures answer { result ≡ space_answer N (items_of self.old) (length more.now) }
        ensures items { items_of self.new ≡ extended N (items_of self.old) more.now }
    {
        if more.len() > N - self.count {
            return Err(Full);
        }
        let end = self.count + more.len();
        let items: &mut [T] = &mut self.items;
        items[self.count..end].copy_from_slice(more);
        self.count = end;
        Ok(())
    }

    // Writes over the item at an index, and answers the old one.
    pub fn replace(&mut self, index: usize, item: T) -> Option<T>
        ensures answer { result ≡ slice_get (items_of self.old) index }
        ensures items { items_of self.new ≡ slice_set (items_of self.old) index «item» }
    {
        let old = *self.as_slice().get(index)?;
        self.items[index] = item;
        Some(old)
    }
}
