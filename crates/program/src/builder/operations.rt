ghost use Rattle.std.specs.Prelude.{◌≡◌, ◌*◌, ◌<◌, length, if◌then◌else◌, Some, None, Ok, Err};
ghost use Rattle.meaning.specs.Blocks.{basic as single, switch};
ghost use Rattle.meaning.specs.Rules.{kind_at};
ghost use Rattle.alphabet.specs.Alphabets.{letters_of};
ghost use Rattle.program.specs.Store.{basic_of};
ghost use Rattle.program.specs.Arms.{codes_of, arms_in};
ghost use Rattle.program.specs.Place.{columns_of, count_of};
ghost use Rattle.program.specs.Built.{built, no_blocks, with_block, has_room, takes_switch, basic_answer, switch_answer, compiled_if};
ghost use Rattle.program.specs.InRange.{kind_fits, blocks_fit, in_range};

use crate::arms::{all_fit, are_whole, write_codes, write_slots};
use crate::blocks::{Arm, Basic, Shape, UNUSED};
use crate::builder::{BuildRefusal, Builder};
use crate::limits::too_many;
use crate::program::Program;
use crate::store::Store;
use alphabet::letters::Alphabet;
use bounded::inline::InlineList;

impl Builder {
    // No block yet. Inlined, as `finish` is, since a store is large to hand over.
    #[inline]
    pub fn new(alphabet: Alphabet) -> Builder
        ensures { built result ≡ no_blocks (letters_of alphabet) }
    {
        Builder {
            store: Store {
                alphabet,
                shapes: InlineList::new(Shape::Single),
                order: [0; 1024],
                slots: [UNUSED; 1024],
            },
        }
    }

    // Is there a number left for one block more, and a row of slots?
    #[tactic(auto, using(crate::proofs::Pushed::room_is))]
    fn has_room(&self) -> bool
        ensures { result ≡ has_room (built self.now) }
    {
        !too_many(self.store.count() as u32, self.store.width() as u32)
    }

    // Where the row of the next number begins, if there is room for it.
    fn next_row(&self) -> Result<usize, BuildRefusal>
        ensures { result ≡ (if has_room (built self.now) then Ok (count_of self.now.store * length (columns_of self.now.store)) else Err BuildRefusal.NoRoom) }
    {
        if !self.has_room() {
            return Err(BuildRefusal::NoRoom);
        }
        Ok(self.store.count() * self.store.width())
    }

    // One basic block more. Where it is refused, nothing changes.
    #[tactic(auto, using(crate::proofs::Pushed::pushing))]
    pub fn push_basic(&mut self, basic: Basic<u32>) -> Result<(), BuildRefusal>
        ensures answer { result ≡ basic_answer (built self.old) }
        ensures blocks { built self.new ≡ (if has_room (built self.old) then with_block (built self.old) (single (basic_of basic)) else built self.old) }
    {
        let place = self.next_row()?;
        let store = &mut self.store;
        // the list is not full, as a number is left
        store.shapes.push(Shape::Single).unwrap();
        store.slots[place] = basic;
        Ok(())
    }

    // One switch more, of which the arms have each column exactly once. Where it is refused, nothing changes.
    #[tactic(auto, using(crate::proofs::Pushed::pushing))]
    pub fn push_switch(&mut self, arms: &[Arm<u32>]) -> Result<(), BuildRefusal>
        ensures answer { result ≡ switch_answer (built self.old) (codes_of arms.now) }
        ensures blocks { built self.new ≡ (if takes_switch (built self.old) (codes_of arms.now) then with_block (built self.old) (switch (arms_in arms.now)) else built self.old) }
    {
        let base = self.next_row()?;
        if !are_whole(&self.store.alphabet, arms) {
            return Err(BuildRefusal::NotWhole);
        }
        let store = &mut self.store;
        // the list is not full, as a number is left
        store.shapes.push(Shape::Switch).unwrap();
        write_codes(&mut store.order, base, arms);
        write_slots(&mut store.slots, base, &store.alphabet, arms);
        Ok(())
    }

    // Does the block with this number fit? Only the slots are asked that it uses: the first of its row, or all of them.
    fn block_fits(&self, number: usize) -> bool
        requires { number < count_of self.now.store }
        ensures { result ≡ kind_fits (columns_of self.now.store) (count_of self.now.store) (kind_at (built self.now).blocks number) }
    {
        let store = &self.store;
        let base = number * store.width();
        let used = match store.shapes.as_slice()[number] {
            Shape::Single => 1,
            Shape::Switch => store.width(),
        };
        all_fit(
            &store.alphabet,
            store.count() as u32,
            &store.slots[base..base + used],
        )
    }

    // Does each block fit? By number: `all` over the slots of all rows would ask those too that no block uses.
    #[tactic(auto, using(crate::proofs::Filled::blocks_more))]
    fn blocks_fit(&self) -> bool
        ensures { result ≡ blocks_fit (columns_of self.now.store) (count_of self.now.store) (built self.now).blocks }
    {
        for number in 0..self.store.count() {
            if !self.block_fits(number) {
                return false;
            }
        }
        true
    }

    // Is there a block, and does each fit?
    #[tactic(auto, using(crate::proofs::Filled::range_is))]
    fn is_in_range(&self) -> bool
        ensures { result ≡ in_range (built self.now) }
    {
        self.store.count() > 0 && self.blocks_fit()
    }

    // The program, or nothing where there is no block, or one writes a symbol that is no column or leads to a number that is none of the program's.
    #[inline]
    pub fn finish(self) -> Option<Program>
        ensures { compiled_if result ≡ (if in_range (built self) then Some (built self) else None) }
    {
        if self.is_in_range() {
            Some(Program { store: self.store })
        } else {
            None
        }
    }
}
